ghost use Rattle.kern_reader.specs.Tokens as definitions;
ghost use Rattle.kern_reader.specs.Tokens.{IsWellNote, marks_of, note_of};
ghost use Rattle.std.specs.List.{prefix_len};
ghost use Rattle.std.specs.Prelude.{◌≡◌, ◌≤◌, IfSome, drop, length, take_while};

use crate::pitch::key;
use crate::token::{Note, Style, TieMark, Writing};
use crate::value::value;

/// Whether a value is written with the byte.
fn is_value_byte(byte: u8) -> bool
    ensures { result ≡ definitions.is_value_byte byte }
{
    byte.is_ascii_digit() || byte == b'.'
}

/// Whether a pitch is written with the byte.
fn is_pitch_byte(byte: u8) -> bool
    ensures { result ≡ definitions.is_pitch_byte byte }
{
    matches!(byte, b'a'..=b'g') || matches!(byte, b'A'..=b'G') || byte == b'#' || byte == b'-'
}

#[tactic(auto, using(crate::proofs::Runs::prefix_within))]
/// How many bytes of a value the text begins with.
fn value_len(text: &[u8]) -> usize
    ensures count { result ≡ prefix_len definitions.is_value_byte text.now }
    ensures within { result ≤ length text.now }
{
    text.iter().take_while(|byte| is_value_byte(**byte)).count()
}

#[tactic(auto, using(crate::proofs::Runs::prefix_within))]
/// How many bytes of a pitch the text begins with.
fn pitch_len(text: &[u8]) -> usize
    ensures count { result ≡ prefix_len definitions.is_pitch_byte text.now }
    ensures within { result ≤ length text.now }
{
    text.iter().take_while(|byte| is_pitch_byte(**byte)).count()
}

/// The value that a text begins with, and what stands after it.
pub(crate) fn split_value(text: &[u8]) -> (&[u8], &[u8])
    ensures front { result.0.now ≡ definitions.value_part text.now }
    ensures back { result.1.now ≡ definitions.after_value text.now }
{
    text.split_at(value_len(text))
}

/// The pitch that a text begins with, and what stands after it.
fn split_pitch(text: &[u8]) -> (&[u8], &[u8])
    ensures front { result.0.now ≡ take_while definitions.is_pitch_byte text.now }
    ensures back { result.1.now ≡ drop (prefix_len definitions.is_pitch_byte text.now) text.now }
{
    text.split_at(pitch_len(text))
}

#[tactic(auto, unfolding(crate::specs::Tokens::marks_of))]
/// What the marks after a pitch say of the tie, and whether they say that the note is short.
fn marks(text: &[u8]) -> Option<(TieMark, bool)>
    ensures { result ≡ marks_of text.now }
{
    if text == b"".as_slice() {
        Some((TieMark::Absent, false))
    } else if text == b"'".as_slice() {
        Some((TieMark::Absent, true))
    } else if text == b"_".as_slice() {
        Some((TieMark::GoesOn, false))
    } else if text == b"]".as_slice() {
        Some((TieMark::Ends, false))
    } else {
        None
    }
}

#[tactic(auto, unfolding(crate::specs::Tokens::valued_note))]
/// The note with a value that a text says, where a bracket stands before it or none.
fn valued_note(opens: bool, text: &[u8]) -> Option<Note>
    ensures note { result ≡ definitions.valued_note opens text.now }
    ensures well { IfSome result IsWellNote }
{
    let (value_text, rest) = split_value(text);
    let (pitch_text, marks_text) = split_pitch(rest);
    let value = value(value_text)?;
    let key = key(pitch_text)?;
    let (tie, short) = marks(marks_text)?;
    let writing = Writing {
        value,
        opens,
        tie,
        short,
    };
    Some(Note {
        style: Style::Valued(writing),
        key,
    })
}

/// The grace note of a pitch.
fn grace_note(text: &[u8]) -> Option<Note>
    ensures note { result ≡ definitions.grace_note text.now }
    ensures well { IfSome result IsWellNote }
{
    let key = key(text)?;
    Some(Note {
        style: Style::Grace,
        key,
    })
}

#[tactic(auto, unfolding(crate::specs::Tokens::note_of))]
/// The note that a text says.
pub(crate) fn note(text: &[u8]) -> Option<Note>
    ensures note { result ≡ note_of text.now }
    ensures well { IfSome result IsWellNote }
{
    match text {
        [] => None,
        [b'q', rest @ ..] => grace_note(rest),
        [b'[', rest @ ..] => valued_note(true, rest),
        [_first, _rest @ ..] => valued_note(false, text),
    }
}
