ghost use Rattle.lily_writer.specs.Pitches as definitions;
ghost use Rattle.lily_writer.specs.Pitches.{names, octave_marks};
ghost use Rattle.score_words.specs.Writing.{Writes};
ghost use Rattle.std.specs.Prelude.{◌<◌, [], slice_index_or};

use score_words::{is_black, letter, push_times};
use std::alloc::AllocError;

/// Appends the name of a key of an octave, with flats or with sharps.
fn push_name(text: &mut Vec<u8>, flats: bool, key: u8) -> Result<(), AllocError>
    requires { key < 12 }
    ensures { Writes (slice_index_or (names flats) key []) text.old result text.new }
{
    text.push(letter(flats, key))?;
    if is_black(key) {
        text.extend_from_slice(if flats { b"es" } else { b"is" })?;
    }
    Ok(())
}

/// Appends the marks of an octave.
fn push_octave(text: &mut Vec<u8>, octave: u8) -> Result<(), AllocError>
    ensures { Writes (octave_marks octave) text.old result text.new }
{
    if octave >= 4 {
        push_times(text, b'\'', octave - 4)
    } else {
        push_times(text, b',', 4 - octave)
    }
}

/// Appends the pitch of a key, with flats or with sharps.
pub(crate) fn push_pitch(text: &mut Vec<u8>, flats: bool, key: u8) -> Result<(), AllocError>
    ensures { Writes (definitions.lily_pitch flats key) text.old result text.new }
{
    push_name(text, flats, key % 12)?;
    push_octave(text, key / 12)
}
