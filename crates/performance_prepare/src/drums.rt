ghost use Rattle.performance_load.specs.Take.{Take};
ghost use Rattle.performance_prepare.specs.Drums as drums;
ghost use Rattle.performance_prepare.specs.Outcome.{Answers};
ghost use Rattle.std.specs.Prelude.{◌≡◌, IfOk};

use crate::prepare_fault::PrepareFault;
use performance_load::Take;
use rhythm_base::Note;
use std::alloc::{AllocError, Global};

/// The channel of drums.
pub const DRUMS: u8 = 9;

/// The notes of other channels than that of drums.
fn pitched_notes(alloc: Global, notes: &[Note]) -> Result<Vec<Note>, AllocError>
    ensures { IfOk result (λ v. v.items ≡ drums.pitched_notes notes.now) }
{
    notes
        .iter()
        .copied()
        .filter(|note| note.channel != DRUMS)
        .collect(alloc)
}

/// The take without the notes of the channel of drums.
pub fn without_drums(alloc: Global, take: Take) -> Result<Take, PrepareFault>
    ensures { Answers (drums.without_drums take) result }
{
    let notes = pitched_notes(alloc, &take.notes)?;
    if notes.is_empty() {
        return Err(PrepareFault::NoNotes);
    }
    Ok(Take { notes, ..take })
}
