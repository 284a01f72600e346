ghost use Rattle.derivation.specs.Score.{IsKeySignature};
ghost use Rattle.page_writer.specs.Pitches.{page_chord, page_pitches};
ghost use Rattle.std.specs.List.{join_with_byte};
ghost use Rattle.score_words.specs.Writing.{Writes};
ghost use Rattle.std.specs.Prelude.{IfSome, map};

use crate::pitch::push_pitch;
use rhythm_base::Keys;
use score_words::{RisingKeys, key_count, push_between};
use std::alloc::AllocError;

/// Appends the pitches of a chord by rising key, with a space between two.
fn push_pitches(text: &mut Vec<u8>, sf: Option<i8>, keys: Keys) -> Result<(), AllocError>
    requires { IfSome sf IsKeySignature }
    ensures { Writes (join_with_byte 32 (page_pitches sf keys)) text.old result text.new }
{
    let mut left = RisingKeys::of(keys);
    let mut number = 0;
    'keys: while let Some(key) = left.next() {
        push_between(text, b' ', number)?;
        push_pitch(text, sf, key)?;
        number += 1;
    }
    Ok(())
}

/// Appends a chord: the pitch of its key, or those of several between angles.
pub(crate) fn push_chord(text: &mut Vec<u8>, sf: Option<i8>, keys: Keys) -> Result<(), AllocError>
    requires { IfSome sf IsKeySignature }
    ensures { Writes (page_chord sf keys) text.old result text.new }
{
    if key_count(keys) == 1 {
        return push_pitches(text, sf, keys);
    }
    text.push(b'<')?;
    push_pitches(text, sf, keys)?;
    text.push(b'>')?;
    Ok(())
}
