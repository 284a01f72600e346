ghost use Rattle.derivation.specs.Score.{IsScoreBar};
ghost use Rattle.derivation.specs.WellSounded.{AreWellSounded};
ghost use Rattle.musicxml_writer.specs.Elements.{line, text_if};
ghost use Rattle.musicxml_writer.specs.Parts.{WritesPart, bars_text, final_barline, measure_start, part_name, part_start, placed_text};
ghost use Rattle.rhythm_base.specs.declared.limits.TheConstants.{MOST_BARS, MOST_UNITS};
ghost use Rattle.score_words.specs.Writing.{Writes};
ghost use Rattle.std.specs.Prelude.{◌≡◌, ◌≤◌, All, IfSome, None, length};

use crate::attributes::push_attributes_line;
use crate::bar::push_bar_notes;
use crate::elements::{close_line, end_opening, open_with, push_words, start_attribute};
use crate::tempo::push_tempo_line;
use derivation::ScoreBar;
use notation::{BarGroups, Clef, Group, clef_of, voice_groups};
use rhythm_base::{Sound, Units};
use score_words::push_number;
use std::alloc::{AllocError, Global};

/// What is said of a part before its bars.
#[derive(Clone, Copy)]
pub(crate) struct Part {
    /// The units of a bar.
    pub(crate) resolution: u16,
    pub(crate) clef: Clef,
    /// The first part says the tempos.
    pub(crate) is_first: bool,
}

/// A bar with its place in a part.
#[derive(Clone, Copy)]
pub(crate) struct PlacedBar {
    pub(crate) bar: ScoreBar,
    /// The bar before it.
    pub(crate) before: Option<ScoreBar>,
    /// Counted from 1.
    pub(crate) number: usize,
    pub(crate) is_last: bool,
}

/// Appends the name of a part.
pub(crate) fn push_part_name(text: &mut Vec<u8>, number: u64) -> Result<(), AllocError>
    ensures { Writes (part_name number) text.old result text.new }
{
    text.push(b'P')?;
    push_number(text, number)
}

/// Appends the line that opens a bar.
#[tactic(auto, unfolding(crate::specs::Elements::opening_with))]
fn push_measure_start(text: &mut Vec<u8>, number: u64) -> Result<(), AllocError>
    ensures { Writes (line (measure_start number)) text.old result text.new }
{
    start_attribute(text, "measure", "number")?;
    push_number(text, number)?;
    end_opening(text)?;
    text.push(b'\n')?;
    Ok(())
}

/// Appends the line of the barline after the last bar.
#[tactic(auto, unfolding(crate::specs::Parts::final_barline))]
fn push_barline(text: &mut Vec<u8>, is_last: bool) -> Result<(), AllocError>
    ensures { Writes (text_if is_last final_barline) text.old result text.new }
{
    if is_last {
        open_with(text, "barline", "location", "right")?;
        push_words(text, "bar-style", "light-heavy")?;
        close_line(text, "barline")?;
    }
    Ok(())
}

/// Appends the lines of a bar.
#[tactic(auto, unfolding(crate::specs::Parts::bar_text))]
fn push_bar(
    text: &mut Vec<u8>,
    part: Part,
    placed: &PlacedBar,
    groups: &[Group<'_>],
) -> Result<(), AllocError>
    requires before { IfSome placed.now.before IsScoreBar }
    requires bar { IsScoreBar placed.now.bar }
    requires actual { All (λ g. g.ratio.actual ≤ MOST_UNITS) groups.now }
    ensures { Writes (placed_text part placed.now groups.now) text.old result text.new }
{
    push_measure_start(text, placed.number as u64)?;
    push_attributes_line(text, part, placed.before, &placed.bar)?;
    push_tempo_line(text, part, placed.before, &placed.bar)?;
    push_bar_notes(text, part.resolution, &placed.bar, groups)?;
    push_barline(text, placed.is_last)?;
    close_line(text, "measure")
}

/// Appends the lines of all bars, each with its groups.
fn push_bars(
    text: &mut Vec<u8>,
    part: Part,
    bars: &[ScoreBar],
    groups: &[BarGroups<'_>],
) -> Result<(), AllocError>
    requires bars { All IsScoreBar bars.now }
    requires same { length groups.now ≡ length bars.now }
    requires actual { All (All (λ g. g.ratio.actual ≤ MOST_UNITS)) groups.now }
    ensures { Writes (bars_text part None 1 bars.now groups.now) text.old result text.new }
{
    let mut before = None;
    'bars: for (index, bar) in bars.iter().enumerate() {
        let placed = PlacedBar {
            bar: *bar,
            before,
            number: index + 1,
            is_last: index + 1 == bars.len(),
        };
        let own = &groups[index];
        push_bar(text, part, &placed, &own.groups)?;
        before = Some(*bar);
    }
    Ok(())
}

/// Appends the line that opens a part.
#[tactic(auto, unfolding(crate::specs::Elements::opening_with))]
fn push_part_start(text: &mut Vec<u8>, number: u64) -> Result<(), AllocError>
    ensures { Writes (line (part_start number)) text.old result text.new }
{
    start_attribute(text, "part", "id")?;
    push_part_name(text, number)?;
    end_opening(text)?;
    text.push(b'\n')?;
    Ok(())
}

/// Appends the lines of the part of a voice.
#[tactic(auto, unfolding(crate::specs::Parts::part_text))]
pub(crate) fn push_part(
    alloc: Global,
    text: &mut Vec<u8>,
    resolution: Units,
    number: usize,
    bars: &[ScoreBar],
    sounds: &[Sound],
) -> Result<(), AllocError>
    requires bars { All IsScoreBar bars.now }
    requires few_bars { length bars.now ≤ MOST_BARS }
    requires sounds { AreWellSounded resolution (length bars.now) sounds.now }
    ensures { WritesPart resolution number bars.now sounds.now text.old result text.new }
{
    let units = resolution.count();
    let groups = voice_groups(alloc, resolution, bars, sounds)?;
    let part = Part {
        resolution: units,
        clef: clef_of(sounds),
        is_first: number == 1,
    };
    push_part_start(text, number as u64)?;
    push_bars(text, part, bars, &groups)?;
    close_line(text, "part")
}
