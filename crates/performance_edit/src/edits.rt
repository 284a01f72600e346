ghost use Rattle.edit_laws.specs.Edits as edits;
ghost use Rattle.performance_edit.specs.Refusals.{refusal};
ghost use Rattle.rhythm_base.specs.EditRanges.{IsEditInRange};
ghost use Rattle.rhythm_base.specs.declared.edit_fault.EditFault.{EditFault};
ghost use Rattle.rhythm_base.specs.declared.edit_fault.EditFault.TheVariants.{Memory};
ghost use Rattle.std.specs.Prelude.{◌≡◌, ◌≢◌, Err, IfOk, IsOk, None, Ok};

use crate::bars::{bars_after, last_after};
use crate::notes::notes_after;
use crate::pins::pins_after;
use crate::refusals::refusal;
use rhythm_base::{Edit, EditFault, Performance};
use std::alloc::{AllocError, Global};

/// The performance after an edit that is not refused.
fn performance_after(
    alloc: Global,
    performance: &Performance,
    edit: &Edit,
) -> Result<Performance, AllocError>
    requires range { IsEditInRange edit.now }
    requires made { refusal performance.now edit.now ≡ None }
    ensures { IfOk result (λ q. q ≡ edits.performance_after performance.now edit.now) }
{
    let bars = bars_after(alloc, performance, edit)?;
    let last = last_after(performance, edit);
    let notes = notes_after(alloc, performance, edit)?;
    let pins = pins_after(alloc, performance, edit)?;
    performance.with_parts(bars, last, notes, pins)
}

/// The performance after an edit, or the first refusal of the edit. Whether each voice has a derivation is asked
/// afterwards. An edit that is not refused may still want memory.
pub fn edited(
    alloc: Global,
    performance: &Performance,
    edit: &Edit,
) -> Result<Performance, EditFault>
    requires { IsEditInRange edit.now }
    ensures ok { IfOk result (λ q. edits.edited performance.now edit.now ≡ Ok q) }
    ensures refused { (fault : EditFault) → result ≡ Err fault → fault ≢ Memory
        → edits.edited performance.now edit.now ≡ Err fault }
    ensures memory { result ≡ Err Memory → IsOk (edits.edited performance.now edit.now) }
{
    match refusal(performance, edit) {
        Some(fault) => Err(fault),
        None => performance_after(alloc, performance, edit).map_err(|_error| EditFault::Memory),
    }
}
