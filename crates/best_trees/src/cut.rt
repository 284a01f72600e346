ghost use Rattle.best_trees.specs.Pieces.{ArePieces};
ghost use Rattle.std.specs.Prelude.{IfOk};

use grammar_plan::sizes;
use rhythm_base::Body;
use std::alloc::{AllocError, Global};

/// A part of a cut.
#[derive(Clone, Copy, Debug, PartialEq, Eq)]
pub struct Piece {
    /// Its width in units.
    pub width: u16,
    /// The symbol of its tree: the number of a name.
    pub symbol: u8,
}

/// The parts of a node of this width, in units: none of a leaf.
pub fn children(alloc: Global, body: &Body, width: u16) -> Result<Vec<Piece>, AllocError>
    ensures { IfOk result (λ v. ArePieces body.now width v.items) }
{
    match body {
        Body::Split(symbols) => equal_pieces(alloc, symbols.as_slice(), width),
        Body::Parts(portions) => unequal_pieces(alloc, portions.as_slice(), width),
        _ => Ok(Vec::new(alloc)),
    }
}

/// Parts of these symbols that share the width equally.
fn equal_pieces(alloc: Global, symbols: &[u8], width: u16) -> Result<Vec<Piece>, AllocError>
    ensures { IfOk result (λ v. ArePieces (Body.Split symbols.now) width v.items) }
{
    let share = (width as usize / symbols.len().max(1)) as u16;
    let mut pieces = Vec::new(alloc);
    for symbol in symbols {
        pieces.push(Piece {
            width: share,
            symbol: *symbol,
        })?;
    }
    Ok(pieces)
}

/// Parts that share the width by their sizes.
fn unequal_pieces(alloc: Global, parts: &[(u8, u8)], width: u16) -> Result<Vec<Piece>, AllocError>
    ensures { IfOk result (λ v. ArePieces (Body.Parts parts.now) width v.items) }
{
    let share = (width as u128 / sizes(parts).max(1)) as u16;
    let mut pieces = Vec::new(alloc);
    for part in parts {
        pieces.push(Piece {
            width: part.0 as u16 * share,
            symbol: part.1,
        })?;
    }
    Ok(pieces)
}
