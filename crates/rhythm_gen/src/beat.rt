ghost use Rattle.rhythm_gen.specs.Beat.{beat_notes, figure, key, kind, notes_in_beat, shift};
ghost use Rattle.std.specs.Prelude.{◌≡◌, ◌++◌, OnOk};

use crate::figure::Figure;
use crate::voice_channel::VoiceChannel;
use rhythm_base::Note;
use std::alloc::AllocError;

/// What a beat at this place of its bar plays, by its draw.
fn figure_of(place: u32, draw: u32) -> Figure
    ensures { result ≡ figure (kind place draw) }
{
    match draw % 4 {
        0 if place > 0 => Figure::Rest,
        3 => Figure::Two,
        _ => Figure::One,
    }
}

/// The key of a beat's notes, by its draw.
fn key_of(channel: VoiceChannel, draw: u32) -> u8
    ensures { result ≡ key channel draw }
{
    60 - 12 * channel.number() + (draw / 84 % 12) as u8
}

/// Appends the notes of a beat, which is counted through the piece, by its draw.
pub(crate) fn push_beat(
    notes: &mut Vec<Note>,
    channel: VoiceChannel,
    beat: u32,
    draw: u32,
) -> Result<(), AllocError>
    ensures { OnOk result (notes.new.items ≡ notes.old.items ++ beat_notes channel beat draw) }
{
    let key = key_of(channel, draw);
    let channel = channel.number();
    let begin = 480 * u64::from(beat) + u64::from(draw / 4 % 21);
    let note = |onset: u64, length: u64| Note {
        channel,
        key,
        onset,
        end: onset + length,
    };
    match figure_of(beat % 4, draw) {
        Figure::Rest => Ok(()),
        Figure::One => Ok(notes.push(note(begin, 400))?),
        Figure::Two => {
            notes.push(note(begin, 180))?;
            Ok(notes.push(note(begin + 240, 180))?)
        }
    }
}
