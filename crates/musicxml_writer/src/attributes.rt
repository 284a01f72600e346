ghost use Rattle.musicxml_writer.specs.Attributes as definitions;
ghost use Rattle.musicxml_writer.specs.Attributes.{attributes, attributes_line, clef_text, divisions, is_none, key_change, time, time_change};
ghost use Rattle.musicxml_writer.specs.Elements.{text_if};
ghost use Rattle.score_words.specs.Changes.{same_signature};
ghost use Rattle.score_words.specs.Writing.{Writes};
ghost use Rattle.std.specs.Prelude.{◌≡◌, not};

use crate::elements::{close, close_line, open, push_count, push_signed, push_some, push_words};
use crate::part::Part;
use derivation::ScoreBar;
use notation::Clef;
use score_words::{is_same_key, is_same_signature, key_before};
use std::alloc::AllocError;

/// Appends how many parts a quarter has, before the first bar.
#[tactic(auto, unfolding(crate::specs::Attributes::divisions))]
fn push_divisions(
    text: &mut Vec<u8>,
    resolution: u16,
    before: Option<ScoreBar>,
) -> Result<(), AllocError>
    ensures { Writes (text_if (is_none before) (divisions resolution)) text.old result text.new }
{
    match before {
        None => push_count(text, "divisions", 16 * u64::from(resolution)),
        Some(_) => Ok(()),
    }
}

/// Whether a bar has a key, and not the one before.
fn changes_key(before: Option<i8>, key: Option<i8>) -> bool
    ensures { result ≡ definitions.changes_key before key }
{
    match key {
        None => false,
        Some(sf) => !is_same_key(before, sf),
    }
}

/// Appends the element of a key, where there is one and it is not the one before.
#[tactic(auto, unfolding(crate::specs::Elements::element, crate::specs::Attributes::key_change))]
fn push_key_change(
    text: &mut Vec<u8>,
    before: Option<i8>,
    key: Option<i8>,
) -> Result<(), AllocError>
    ensures { Writes (key_change before key) text.old result text.new }
{
    match key {
        Some(sf) if !is_same_key(before, sf) => {
            open(text, "key")?;
            push_signed(text, "fifths", sf)?;
            close(text, "key")
        }
        _ => Ok(()),
    }
}

/// Appends the element of a signature, where it is not the one before.
#[tactic(auto, unfolding(crate::specs::Elements::element, crate::specs::Attributes::time))]
fn push_time_change(
    text: &mut Vec<u8>,
    before: Option<ScoreBar>,
    bar: &ScoreBar,
) -> Result<(), AllocError>
    ensures { Writes (time_change before bar.now) text.old result text.new }
{
    if is_same_signature(before, bar) {
        return Ok(());
    }
    open(text, "time")?;
    push_count(text, "beats", u64::from(bar.num))?;
    push_count(text, "beat-type", u64::from(bar.den))?;
    close(text, "time")
}

/// The sign of a clef.
fn sign_text(clef: Clef) -> &'static str
    ensures { result.now ≡ definitions.sign_text clef }
{
    match clef {
        Clef::BassBelow | Clef::Bass => "F",
        Clef::Treble | Clef::TrebleAbove => "G",
    }
}

/// The line on which the sign of a clef stands, from below.
fn line_text(clef: Clef) -> &'static str
    ensures { result.now ≡ definitions.line_text clef }
{
    match clef {
        Clef::BassBelow | Clef::Bass => "4",
        Clef::Treble | Clef::TrebleAbove => "2",
    }
}

/// By how many octaves the notes of a clef stand above or below it: no text where they do not.
fn octave_text(clef: Clef) -> &'static str
    ensures { result.now ≡ definitions.octave_text clef }
{
    match clef {
        Clef::BassBelow => "-1",
        Clef::Bass | Clef::Treble => "",
        Clef::TrebleAbove => "1",
    }
}

/// Appends the element of a clef.
#[tactic(auto, unfolding(crate::specs::Elements::element, crate::specs::Attributes::clef_text))]
fn push_clef(text: &mut Vec<u8>, clef: Clef) -> Result<(), AllocError>
    ensures { Writes (clef_text clef) text.old result text.new }
{
    open(text, "clef")?;
    push_words(text, "sign", sign_text(clef))?;
    push_words(text, "line", line_text(clef))?;
    push_some(text, "clef-octave-change", octave_text(clef))?;
    close(text, "clef")
}

/// Appends the elements of what is said before a bar.
#[tactic(auto, unfolding(crate::specs::Attributes::attributes))]
fn push_attributes(
    text: &mut Vec<u8>,
    part: Part,
    before: Option<ScoreBar>,
    bar: &ScoreBar,
) -> Result<(), AllocError>
    ensures { Writes (attributes part before bar.now) text.old result text.new }
{
    push_divisions(text, part.resolution, before)?;
    push_key_change(text, key_before(before), bar.sf)?;
    push_time_change(text, before, bar)?;
    if before.is_none() {
        push_clef(text, part.clef)?;
    }
    Ok(())
}

/// Appends the line of what is said before a bar, where something is.
#[tactic(auto, unfolding(crate::specs::Elements::element, crate::specs::Attributes::attributes_line))]
pub(crate) fn push_attributes_line(
    text: &mut Vec<u8>,
    part: Part,
    before: Option<ScoreBar>,
    bar: &ScoreBar,
) -> Result<(), AllocError>
    ensures { Writes (attributes_line part before bar.now) text.old result text.new }
{
    if !changes_key(key_before(before), bar.sf) && is_same_signature(before, bar) {
        return Ok(());
    }
    open(text, "attributes")?;
    push_attributes(text, part, before, bar)?;
    close_line(text, "attributes")
}
