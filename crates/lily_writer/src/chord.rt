ghost use Rattle.lily_writer.specs.Pitches.{lily_chord, lily_pitches};
ghost use Rattle.std.specs.List.{join_with_byte};
ghost use Rattle.score_words.specs.Writing.{Writes};
ghost use Rattle.std.specs.Prelude.{map};

use crate::pitch::push_pitch;
use rhythm_base::Keys;
use score_words::{RisingKeys, key_count, push_between};
use std::alloc::AllocError;

/// Appends the pitches of a chord by rising key, with a space between two.
fn push_pitches(text: &mut Vec<u8>, flats: bool, keys: Keys) -> Result<(), AllocError>
    ensures { Writes (join_with_byte 32 (lily_pitches flats keys)) text.old result text.new }
{
    let mut left = RisingKeys::of(keys);
    let mut number = 0;
    'keys: while let Some(key) = left.next() {
        push_between(text, b' ', number)?;
        push_pitch(text, flats, key)?;
        number += 1;
    }
    Ok(())
}

/// Appends a chord: the pitch of its key, or those of several between angles.
pub(crate) fn push_chord(text: &mut Vec<u8>, flats: bool, keys: Keys) -> Result<(), AllocError>
    ensures { Writes (lily_chord flats keys) text.old result text.new }
{
    if key_count(keys) == 1 {
        return push_pitches(text, flats, keys);
    }
    text.push(b'<')?;
    push_pitches(text, flats, keys)?;
    text.push(b'>')?;
    Ok(())
}
