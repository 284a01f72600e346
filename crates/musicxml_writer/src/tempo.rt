ghost use Rattle.derivation.specs.Score.{IsScoreBar};
ghost use Rattle.musicxml_writer.specs.Attributes.{metronome, sounding_tempo, tempo_line, tempo_text};
ghost use Rattle.musicxml_writer.specs.Elements.{empty_with, line};
ghost use Rattle.score_words.specs.Writing.{Writes};
ghost use Rattle.std.specs.Prelude.{IfSome, codes, decimal};

use crate::elements::{
    close, close_line, open, open_with, push_count, push_words, start_attribute,
};
use crate::part::Part;
use derivation::ScoreBar;
use score_words::{is_same_tempo, push_number, quarters_of_minute};
use std::alloc::AllocError;

/// Appends the element of a metronome.
#[tactic(auto, unfolding(crate::specs::Elements::element))]
fn push_metronome(text: &mut Vec<u8>, quarters: u64) -> Result<(), AllocError>
    ensures { Writes (metronome quarters) text.old result text.new }
{
    open(text, "metronome")?;
    push_words(text, "beat-unit", "quarter")?;
    push_count(text, "per-minute", quarters)?;
    close(text, "metronome")
}

/// Appends the empty element of a tempo that sounds.
#[tactic(auto, unfolding(crate::specs::Elements::empty_with))]
fn push_sound(text: &mut Vec<u8>, quarters: u64) -> Result<(), AllocError>
    ensures { Writes (sounding_tempo quarters) text.old result text.new }
{
    start_attribute(text, "sound", "tempo")?;
    push_number(text, quarters)?;
    text.extend_from_slice(b"\"/>")
}

/// Appends the line of so many quarter notes of a minute.
#[tactic(auto, unfolding(crate::specs::Elements::element, crate::specs::Attributes::tempo_text))]
fn push_tempo(text: &mut Vec<u8>, quarters: u64) -> Result<(), AllocError>
    ensures { Writes (line (tempo_text quarters)) text.old result text.new }
{
    open_with(text, "direction", "placement", "above")?;
    open(text, "direction-type")?;
    push_metronome(text, quarters)?;
    close(text, "direction-type")?;
    push_sound(text, quarters)?;
    close_line(text, "direction")
}

/// Appends the line of the tempo of a bar in the first part, where it is not the one before.
#[tactic(auto, unfolding(crate::specs::Attributes::tempo_line))]
pub(crate) fn push_tempo_line(
    text: &mut Vec<u8>,
    part: Part,
    before: Option<ScoreBar>,
    bar: &ScoreBar,
) -> Result<(), AllocError>
    requires before { IfSome before IsScoreBar }
    requires bar { IsScoreBar bar.now }
    ensures { Writes (tempo_line part before bar.now) text.old result text.new }
{
    if part.is_first && !is_same_tempo(before, bar) {
        push_tempo(text, quarters_of_minute(bar))?;
    }
    Ok(())
}
