ghost use Rattle.grammar_plan.specs.Drafts.{HasPartsOf};
ghost use Rattle.std.specs.Prelude.{IfOk};

use crate::draft::Draft;
use crate::suiting::sizes;
use rhythm_base::Body;
use std::alloc::AllocError;

/// Pushes the seats of the parts of a node of this width, in units: none of a leaf.
pub fn push_parts(draft: &mut Draft, body: &Body, width: u16) -> Result<(), AllocError>
    ensures { IfOk result (λ _. HasPartsOf body.now width draft.old draft.new) }
{
    match body {
        Body::Split(symbols) => push_equal(draft, symbols.as_slice(), width),
        Body::Parts(portions) => push_unequal(draft, portions.as_slice(), width),
        _ => Ok(()),
    }
}

/// Parts of these symbols that share the width equally.
fn push_equal(draft: &mut Draft, symbols: &[u8], width: u16) -> Result<(), AllocError>
    ensures { IfOk result (λ _. HasPartsOf (Body.Split symbols.now) width draft.old draft.new) }
{
    let share = (width as usize / symbols.len().max(1)) as u16;
    'symbols: for symbol in symbols {
        let seat = draft.pairs.seat(share, *symbol)?;
        draft.parts.push(seat)?;
    }
    Ok(())
}

/// Parts that share the width by their sizes.
fn push_unequal(draft: &mut Draft, portions: &[(u8, u8)], width: u16) -> Result<(), AllocError>
    ensures { IfOk result (λ _. HasPartsOf (Body.Parts portions.now) width draft.old draft.new) }
{
    let share = (width as u128 / sizes(portions).max(1)) as u16;
    'portions: for portion in portions {
        let seat = draft.pairs.seat(portion.0 as u16 * share, portion.1)?;
        draft.parts.push(seat)?;
    }
    Ok(())
}
