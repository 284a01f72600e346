ghost use Rattle.edit_script.specs.ReplyText.{shown_by};
ghost use Rattle.edit_session.specs.Asking.{CanBePinned};
ghost use Rattle.script_laws.specs.Script.{shown_alternative};
ghost use Rattle.std.specs.Prelude.{◌≡◌, All, IfOk, map};

use edit_script::Alt;
use edit_session::Alternative;
use std::alloc::{AllocError, Global};

/// An alternative as a reply shows it.
fn shown(alloc: Global, alternative: &Alternative) -> Result<Alt, AllocError>
    requires { CanBePinned alternative.now }
    ensures { IfOk result (λ alt. shown_by alt ≡ shown_alternative alternative.now) }
{
    let shape = alternative.tree.shape(alloc)?;
    Ok(Alt {
        total: alternative.total,
        shape: shape.text(alloc)?,
        rules: alternative.tree.sequence(alloc)?,
    })
}

/// The alternatives as a reply shows them, in the same order.
pub fn all_shown(alloc: Global, list: &[Alternative]) -> Result<Vec<Alt>, AllocError>
    requires { All CanBePinned list.now }
    ensures { IfOk result (λ alts. map shown_by alts.items ≡ map shown_alternative list.now) }
{
    let mut alts = Vec::with_capacity(alloc, list.len())?;
    'alternatives: for alternative in list {
        alts.push(shown(alloc, alternative)?)?;
    }
    Ok(alts)
}
