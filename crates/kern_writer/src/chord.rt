ghost use Rattle.kern_writer.specs.Tokens.{closing, grace_text, main_text, note_text, notes_text, opening, short_mark};
ghost use Rattle.voice_values.specs.GoesOn.{goes_on};
ghost use Rattle.durations.specs.Pitch.{pitch};
ghost use Rattle.score_words.specs.Writing.{Writes};
ghost use Rattle.std.specs.Prelude.{◌++◌, IsTrue, codes};

use crate::pitch::push_pitch;
use crate::value_text::push_value;
use rhythm_base::{Keys, SoundKind};
use score_words::{RisingKeys, push_between};
use std::alloc::AllocError;
use voice_values::VoiceValue;

/// Appends the bracket of the first value of a span of several.
fn push_opening(text: &mut Vec<u8>, goes_on: bool, next: bool) -> Result<(), AllocError>
    ensures { Writes (opening goes_on next) text.old result text.new }
{
    if !goes_on && next {
        text.push(b'[')?;
    }
    Ok(())
}

/// Appends the bracket of the last value of a span of several, and the underscore of one between the first and the last.
fn push_closing(text: &mut Vec<u8>, goes_on: bool, next: bool) -> Result<(), AllocError>
    ensures { Writes (closing goes_on next) text.old result text.new }
{
    if goes_on {
        text.push(if next { b'_' } else { b']' })?;
    }
    Ok(())
}

/// Appends the mark of the first value of a short leaf.
fn push_short(text: &mut Vec<u8>, value: &VoiceValue) -> Result<(), AllocError>
    ensures { Writes (short_mark value.now) text.old result text.new }
{
    if value.sound.kind == SoundKind::Short && value.first {
        text.push(b'\'')?;
    }
    Ok(())
}

/// Appends a note of a value.
fn push_note(
    text: &mut Vec<u8>,
    flats: bool,
    value: &VoiceValue,
    next: bool,
    key: u8,
) -> Result<(), AllocError>
    ensures { Writes (note_text flats value.now next key) text.old result text.new }
{
    let goes_on = value.goes_on();
    push_opening(text, goes_on, next)?;
    push_value(text, value.value)?;
    push_pitch(text, flats, key)?;
    push_closing(text, goes_on, next)?;
    push_short(text, value)
}

/// Appends the notes of a value by rising key, with a space between two.
fn push_notes(
    text: &mut Vec<u8>,
    flats: bool,
    value: &VoiceValue,
    next: bool,
) -> Result<(), AllocError>
    ensures { Writes (notes_text flats value.now next) text.old result text.new }
{
    let mut left = RisingKeys::of(value.sound.keys);
    let mut number = 0;
    'keys: while let Some(key) = left.next() {
        push_between(text, b' ', number)?;
        push_note(text, flats, value, next, key)?;
        number += 1;
    }
    Ok(())
}

/// Appends the main token of a value.
pub(crate) fn push_main(
    text: &mut Vec<u8>,
    flats: bool,
    value: &VoiceValue,
    next: bool,
) -> Result<(), AllocError>
    ensures { Writes (main_text flats value.now next) text.old result text.new }
{
    if value.sound.kind == SoundKind::Rest {
        push_value(text, value.value)?;
        text.extend_from_slice(b"r")
    } else {
        push_notes(text, flats, value, next)
    }
}

/// Appends a note of a grace chord.
fn push_grace_note(text: &mut Vec<u8>, flats: bool, key: u8) -> Result<(), AllocError>
    ensures { Writes (codes "q" ++ pitch flats key) text.old result text.new }
{
    text.extend_from_slice(b"q")?;
    push_pitch(text, flats, key)
}

/// Appends a grace chord by rising key, with a space between two.
pub(crate) fn push_grace(text: &mut Vec<u8>, flats: bool, keys: Keys) -> Result<(), AllocError>
    ensures { Writes (grace_text flats keys) text.old result text.new }
{
    let mut left = RisingKeys::of(keys);
    let mut number = 0;
    'keys: while let Some(key) = left.next() {
        push_between(text, b' ', number)?;
        push_grace_note(text, flats, key)?;
        number += 1;
    }
    Ok(())
}
