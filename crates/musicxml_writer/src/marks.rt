ghost use Rattle.musicxml_writer.specs.Elements.{text_if};
ghost use Rattle.musicxml_writer.specs.Notes as definitions;
ghost use Rattle.musicxml_writer.specs.Notes.{bracket_ends, key_marks, notations, short_mark, start_tag, stop_tag, tie_ends};
ghost use Rattle.score_words.specs.Writing.{Writes};
ghost use Rattle.std.specs.Prelude.{◌≡◌, ◌&&◌, ◌||◌};

use crate::elements::{close, open, push_empty, push_empty_with};
use notation::{Note, Ratio};
use std::alloc::AllocError;

/// Whether the bracket of a note starts at it, and whether it stops there.
#[derive(Clone, Copy)]
pub(crate) struct Bracket {
    pub(crate) starts: bool,
    pub(crate) stops: bool,
}

/// How a note is set: in the key of its bar, and under its bracket.
#[derive(Clone, Copy)]
pub(crate) struct Setting {
    /// The sharps of the key, flats below 0; none where there is no key yet.
    pub(crate) sf: Option<i8>,
    pub(crate) ratio: Ratio,
    pub(crate) bracket: Bracket,
}

/// Appends the empty element that says that something starts, where it does.
fn push_start(text: &mut Vec<u8>, name: &str, starts: bool) -> Result<(), AllocError>
    ensures { Writes (text_if starts (start_tag name.now)) text.old result text.new }
{
    if starts {
        push_empty_with(text, name, "type", "start")
    } else {
        Ok(())
    }
}

/// Appends the empty element that says that something stops, where it does.
fn push_stop(text: &mut Vec<u8>, name: &str, stops: bool) -> Result<(), AllocError>
    ensures { Writes (text_if stops (stop_tag name.now)) text.old result text.new }
{
    if stops {
        push_empty_with(text, name, "type", "stop")
    } else {
        Ok(())
    }
}

/// Appends the ends of the ties of a note: of one that comes to it, and of one that goes on from it.
#[tactic(auto, unfolding(crate::specs::Notes::tie_ends))]
pub(crate) fn push_tie_ends(
    text: &mut Vec<u8>,
    name: &str,
    note: &Note<'_>,
) -> Result<(), AllocError>
    ensures { Writes (tie_ends name.now note.now) text.old result text.new }
{
    push_stop(text, name, note.comes)?;
    push_start(text, name, note.goes)
}

/// Appends the ends of a bracket.
#[tactic(auto, unfolding(crate::specs::Notes::bracket_ends))]
fn push_bracket_ends(text: &mut Vec<u8>, bracket: Bracket) -> Result<(), AllocError>
    ensures { Writes (bracket_ends bracket) text.old result text.new }
{
    push_start(text, "tuplet", bracket.starts)?;
    push_stop(text, "tuplet", bracket.stops)
}

/// Appends the mark of a short note.
#[tactic(auto, unfolding(crate::specs::Elements::element, crate::specs::Notes::short_mark))]
fn push_short(text: &mut Vec<u8>, short: bool) -> Result<(), AllocError>
    ensures { Writes (short_mark short) text.old result text.new }
{
    if short {
        open(text, "articulations")?;
        push_empty(text, "staccato")?;
        close(text, "articulations")?;
    }
    Ok(())
}

/// Appends what is drawn at a key of a chord.
#[tactic(auto, unfolding(crate::specs::Notes::key_marks))]
fn push_key_marks(
    text: &mut Vec<u8>,
    bracket: Bracket,
    note: &Note<'_>,
    lowest: bool,
) -> Result<(), AllocError>
    ensures { Writes (key_marks bracket note.now lowest) text.old result text.new }
{
    push_tie_ends(text, "tied", note)?;
    if lowest {
        push_bracket_ends(text, bracket)?;
        push_short(text, note.is_short)?;
    }
    Ok(())
}

/// Whether something is drawn at a key of a chord.
fn is_marked(bracket: Bracket, note: &Note<'_>, lowest: bool) -> bool
    ensures { result ≡ definitions.is_marked bracket note.now lowest }
{
    note.comes || note.goes || (lowest && (bracket.starts || bracket.stops || note.is_short))
}

/// Appends the element of what is drawn at a key of a chord, where something is.
pub(crate) fn push_key_notations(
    text: &mut Vec<u8>,
    bracket: Bracket,
    note: &Note<'_>,
    lowest: bool,
) -> Result<(), AllocError>
    ensures { Writes (notations (key_marks bracket note.now lowest)) text.old result text.new }
{
    if is_marked(bracket, note, lowest) {
        open(text, "notations")?;
        push_key_marks(text, bracket, note, lowest)?;
        close(text, "notations")?;
    }
    Ok(())
}

/// Whether a bracket starts or stops.
fn has_ends(bracket: Bracket) -> bool
    ensures { result ≡ (bracket.starts || bracket.stops) }
{
    bracket.starts || bracket.stops
}

/// Appends the element of what is drawn at a rest, where something is.
pub(crate) fn push_rest_notations(text: &mut Vec<u8>, bracket: Bracket) -> Result<(), AllocError>
    ensures { Writes (notations (bracket_ends bracket)) text.old result text.new }
{
    if has_ends(bracket) {
        open(text, "notations")?;
        push_bracket_ends(text, bracket)?;
        close(text, "notations")?;
    }
    Ok(())
}
