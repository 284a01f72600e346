ghost use Rattle.durations.specs.Pitch as pitches;
ghost use Rattle.durations.specs.Pitch.{octave_letters};
ghost use Rattle.score_words.specs.Writing.{Writes};
ghost use Rattle.std.specs.Prelude.{◌%◌};

use score_words::{is_black, letter, push_times};
use std::alloc::AllocError;

/// Appends the letter of a key as its octave asks.
fn push_letters(text: &mut Vec<u8>, letter: u8, key: u8) -> Result<(), AllocError>
    ensures { Writes (octave_letters letter key) text.old result text.new }
{
    let octave = key / 12;
    if octave >= 5 {
        push_times(text, letter, octave - 4)
    } else {
        push_times(text, letter.saturating_sub(32), 5 - octave)
    }
}

/// Appends the accidental of a key.
fn push_accidental(text: &mut Vec<u8>, flats: bool, key: u8) -> Result<(), AllocError>
    ensures { Writes (pitches.accidental flats (key % 12)) text.old result text.new }
{
    if is_black(key % 12) {
        text.push(if flats { b'-' } else { b'#' })?;
    }
    Ok(())
}

/// Appends the pitch of a key, with flats or with sharps.
pub(crate) fn push_pitch(text: &mut Vec<u8>, flats: bool, key: u8) -> Result<(), AllocError>
    ensures { Writes (pitches.pitch flats key) text.old result text.new }
{
    push_letters(text, letter(flats, key % 12), key)?;
    push_accidental(text, flats, key)
}
