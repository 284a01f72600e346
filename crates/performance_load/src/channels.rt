ghost use Rattle.performance_load.specs.Loading.{AreVoicesOf, greatest_end, greatest_onset};
ghost use Rattle.rhythm_base.specs.Lists.{AreInOrder};
ghost use Rattle.rhythm_base.specs.Performance.{place_of_note};
ghost use Rattle.std.specs.Prelude.{◌≡◌, IfOk};

use rhythm_base::Note;
use std::alloc::{AllocError, Global};

/// The channels that have a note, rising.
pub fn channels_of(alloc: Global, notes: &[Note]) -> Result<Vec<u8>, AllocError>
    requires { AreInOrder place_of_note notes.now }
    ensures { IfOk result (λ v. AreVoicesOf notes.now v.items) }
{
    let mut channels = Vec::with_capacity(alloc, notes.len())?;
    for note in notes {
        channels.push(note.channel)?;
    }
    channels.dedup();
    Ok(channels)
}

/// The greatest onset, 0 without notes.
pub fn last_onset(notes: &[Note]) -> u64
    ensures { result ≡ greatest_onset notes.now }
{
    let mut last = 0;
    for note in notes {
        last = last.max(note.onset);
    }
    last
}

/// The greatest end, 0 without notes.
pub fn last_end(notes: &[Note]) -> u64
    ensures { result ≡ greatest_end notes.now }
{
    let mut last = 0;
    for note in notes {
        last = last.max(note.end);
    }
    last
}
