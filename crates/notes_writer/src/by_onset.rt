ghost use Rattle.notes_writer.specs.ByOnset.{AreByOnset, place_in_text};
ghost use Rattle.rhythm_base.specs.Lists.{AreInOrder};
ghost use Rattle.rhythm_base.specs.Performance.{place_of_note};
ghost use Rattle.std.specs.Prelude.{◌≡◌, IfOk};

use rhythm_base::Note;
use std::alloc::{AllocError, Global};

/// Notes are written by it.
fn place_in_text(note: &Note) -> [u64; 3]
    ensures { result ≡ place_in_text note.now }
{
    [note.onset, u64::from(note.channel), u64::from(note.key)]
}

/// The notes of a performance by onset, channel and key.
pub(crate) fn notes_by_onset(alloc: Global, notes: &[Note]) -> Result<Vec<Note>, AllocError>
    requires { AreInOrder place_of_note notes.now }
    ensures { IfOk result (λ v. AreByOnset notes.now v.items) }
{
    let mut sorted = Vec::from_slice(alloc, notes)?;
    sorted.sort_by_key(
        |note: &Note|
            ensures { result ≡ place_in_text note.now }
        { place_in_text(note) },
    )?;
    Ok(sorted)
}
