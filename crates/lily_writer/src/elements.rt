ghost use Rattle.lily_writer.specs.Elements.{lily_grace, note_value, spaced, lily_short, lily_tie};
ghost use Rattle.lily_writer.specs.Pieces as pieces;
ghost use Rattle.lily_writer.specs.Pieces.{first_graces, grace_elements, notes};
ghost use Rattle.durations.specs.Value.{plain_grid};
ghost use Rattle.std.specs.List.{flat_map};
ghost use Rattle.lily_writer.specs.Writing.{WritesElements, WritesRests};
ghost use Rattle.score_words.specs.Writing.{Writes};
ghost use Rattle.std.specs.Prelude.{◌≡◌, ◌≤◌, ◌++◌, All};

use crate::chord::push_chord;
use crate::value_text::push_value;
use durations::Value;
use rhythm_base::{Keys, Span};
use std::alloc::AllocError;

/// Appends the marks of a value of a chord: of the first one of a short chord, and of one that is tied to the next.
fn push_marks(text: &mut Vec<u8>, short: bool, tied: bool) -> Result<(), AllocError>
    ensures { Writes (lily_short short ++ lily_tie tied) text.old result text.new }
{
    if short {
        text.extend_from_slice(b"-.")?;
    }
    if tied {
        text.push(b'~')?;
    }
    Ok(())
}

/// Appends a value of a chord, and a space.
fn push_chord_value(
    text: &mut Vec<u8>,
    flats: bool,
    keys: Keys,
    value: Value,
    short: bool,
    tied: bool,
) -> Result<(), AllocError>
    requires { 1 ≤ plain_grid value.recip }
    ensures { Writes (spaced flats (note_value keys value short tied)) text.old result text.new }
{
    push_chord(text, flats, keys)?;
    push_value(text, value)?;
    push_marks(text, short, tied)?;
    text.push(b' ')?;
    Ok(())
}

/// Whether a value is tied before these values of its chord, after which it goes on or not.
fn is_tied(goes_on: bool, later: &[Value]) -> bool
    ensures { result ≡ pieces.tied_before goes_on later.now }
{
    match later {
        [] => goes_on,
        [_next, ..] => true,
    }
}

/// Appends the values of a chord, after which it goes on or not.
pub(crate) fn push_notes(
    text: &mut Vec<u8>,
    flats: bool,
    keys: Keys,
    values: &[Value],
    short: bool,
    goes_on: bool,
) -> Result<(), AllocError>
    requires { All (λ v. 1 ≤ plain_grid v.recip) values.now }
    ensures { WritesElements flats (notes keys short goes_on values.now) text.old result text.new }
{
    let mut marked = short;
    let mut later = values;
    'values: while let [value, more @ ..] = later {
        push_chord_value(text, flats, keys, *value, marked, is_tied(goes_on, more))?;
        marked = false;
        later = more;
    }
    Ok(())
}

/// Appends values of a rest, with a space after each.
pub(crate) fn push_rests(text: &mut Vec<u8>, values: &[Value]) -> Result<(), AllocError>
    requires { All (λ v. 1 ≤ plain_grid v.recip) values.now }
    ensures { WritesRests values.now text.old result text.new }
{
    'values: for value in values {
        text.push(b'r')?;
        push_value(text, *value)?;
        text.push(b' ')?;
    }
    Ok(())
}

/// Appends grace chords as eighths, with a space after each.
fn push_grace_chords(text: &mut Vec<u8>, flats: bool, chords: &[Keys]) -> Result<(), AllocError>
    ensures { Writes (flat_map (lily_grace flats) chords.now) text.old result text.new }
{
    'chords: for keys in chords {
        push_chord(text, flats, *keys)?;
        text.extend_from_slice(b"8 ")?;
    }
    Ok(())
}

/// Appends grace chords in their braces, and a space, where there are some.
fn push_graces(text: &mut Vec<u8>, flats: bool, chords: &[Keys]) -> Result<(), AllocError>
    ensures { WritesElements flats (grace_elements chords.now) text.old result text.new }
{
    if chords.is_empty() {
        return Ok(());
    }
    text.extend_from_slice(b"\\grace { ")?;
    push_grace_chords(text, flats, chords)?;
    text.extend_from_slice(b"} ")
}

/// Appends the grace chords of a span where it begins.
pub(crate) fn push_first_graces(
    text: &mut Vec<u8>,
    flats: bool,
    begins: bool,
    span: &Span,
) -> Result<(), AllocError>
    ensures { WritesElements flats (first_graces begins span.now) text.old result text.new }
{
    if begins {
        push_graces(text, flats, span.graces.as_slice())
    } else {
        Ok(())
    }
}
