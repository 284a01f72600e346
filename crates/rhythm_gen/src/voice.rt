ghost use Rattle.rhythm_gen.specs.Draws.{draw};
ghost use Rattle.rhythm_gen.specs.Voice.{CanBeWritten, voice_notes};
ghost use Rattle.std.specs.Prelude.{◌≡◌, ◌*◌, All, IfOk, OnOk};

use crate::beat::push_beat;
use crate::draws::Draws;
use crate::piece_bars::PieceBars;
use crate::voice_channel::VoiceChannel;
use rhythm_base::Note;
use std::alloc::{AllocError, Global};

/// The notes of a voice of so many bars, with one draw for each beat.
#[tactic(auto, using(crate::proofs::Voices::more_beats, crate::proofs::OneMoreDraw::first_draw, crate::proofs::OneMoreDraw::later_draw))]
pub(crate) fn voice_notes(
    alloc: Global,
    draws: &mut Draws,
    channel: VoiceChannel,
    bars: PieceBars,
) -> Result<Vec<Note>, AllocError>
    ensures notes { IfOk result (λ notes. notes.items ≡ voice_notes draws.old bars channel) }
    ensures draws { OnOk result (draws.new ≡ draw draws.old (4 * bars)) }
{
    let mut notes = Vec::new(alloc);
    for beat in 0..4 * bars.count() {
        push_beat(&mut notes, channel, beat, draws.next())?;
    }
    Ok(notes)
}
