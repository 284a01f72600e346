ghost use Rattle.rhythm_gen.specs.Track.{note_bytes, track_bytes};
ghost use Rattle.rhythm_gen.specs.Voice.{CanBeWritten};
ghost use Rattle.std.specs.Prelude.{◌≡◌, ◌++◌, ◌*◌, All, IfOk, OnOk};

use crate::piece_bars::PieceBars;
use rhythm_base::{Note, What};
use smf_bytes::{push_end, push_event};
use std::alloc::{AllocError, Global};

/// Appends the note on and the note off of a note after the tick.
fn push_note(content: &mut Vec<u8>, tick: u64, note: &Note) -> Result<(), AllocError>
    requires { CanBeWritten note.now }
    ensures { OnOk result (content.new.items ≡ content.old.items ++ note_bytes tick note.now) }
{
    let Note {
        channel,
        key,
        onset,
        end,
    } = *note;
    push_event(
        content,
        onset.saturating_sub(tick),
        What::On { channel, key },
    )?;
    push_event(
        content,
        end.saturating_sub(onset),
        What::Off { channel, key },
    )
}

/// The content of a track of these notes that ends with its last bar.
#[tactic(auto, using(crate::proofs::Tracks::bytes_push, crate::proofs::Tracks::last_end_push))]
pub(crate) fn track_content(
    alloc: Global,
    notes: &[Note],
    bars: PieceBars,
) -> Result<Vec<u8>, AllocError>
    requires { All CanBeWritten notes.now }
    ensures { IfOk result (λ content. content.items ≡ track_bytes notes.now (1920 * bars)) }
{
    let mut content = Vec::new(alloc);
    let mut tick = 0;
    for note in notes {
        push_note(&mut content, tick, note)?;
        tick = note.end;
    }
    let end = u64::from(1920 * bars.count());
    push_end(&mut content, end.saturating_sub(tick))?;
    Ok(content)
}
