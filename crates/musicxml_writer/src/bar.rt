ghost use Rattle.musicxml_writer.specs.Bars as definitions;
ghost use Rattle.musicxml_writer.specs.Bars.{bar_notes, bar_rest, group_text, notes_text};
ghost use Rattle.derivation.specs.Score.{IsKeySignature, IsScoreBar};
ghost use Rattle.rhythm_base.specs.declared.limits.TheConstants.{MOST_UNITS};
ghost use Rattle.std.specs.List.{flat_map};
ghost use Rattle.score_words.specs.Writing.{Writes};
ghost use Rattle.std.specs.Prelude.{◌≡◌, ◌≤◌, All, IfSome};

use crate::elements::{close_line, open, push_count, push_empty_with};
use crate::marks::{Bracket, Setting};
use crate::note::push_note;
use derivation::ScoreBar;
use notation::{Group, Ratio};
use std::alloc::AllocError;

/// How a note is set that is the first of its group or not, and the last or not.
fn set(sf: Option<i8>, ratio: Ratio, first: bool, last: bool) -> Setting
    ensures { result ≡ definitions.set sf ratio first last }
{
    let bracketed = ratio.actual > 1;
    Setting {
        sf,
        ratio,
        bracket: Bracket {
            starts: bracketed && first,
            stops: bracketed && last,
        },
    }
}

/// Appends the lines of the notes of a group.
#[tactic(auto, unfolding(crate::specs::Bars::group_text))]
fn push_group(text: &mut Vec<u8>, sf: Option<i8>, group: &Group<'_>) -> Result<(), AllocError>
    requires sf { IfSome sf IsKeySignature }
    requires actual { group.now.ratio.actual ≤ MOST_UNITS }
    ensures { Writes (group_text sf group.now) text.old result text.new }
{
    let notes = group.notes.as_slice();
    'notes: for (number, note) in notes.iter().enumerate() {
        let setting = set(sf, group.ratio, number == 0, number + 1 == notes.len());
        push_note(text, setting, note)?;
    }
    Ok(())
}

/// Appends the line of a bar of rests alone.
#[tactic(auto, unfolding(crate::specs::Elements::element, crate::specs::Bars::bar_rest))]
fn push_bar_rest(text: &mut Vec<u8>, resolution: u16, bar: &ScoreBar) -> Result<(), AllocError>
    requires { IsScoreBar bar.now }
    ensures { Writes (bar_rest resolution bar.now) text.old result text.new }
{
    let length = 64 * u64::from(resolution) * u64::from(bar.num) / u64::from(bar.den);
    open(text, "note")?;
    push_empty_with(text, "rest", "measure", "yes")?;
    push_count(text, "duration", length)?;
    close_line(text, "note")
}

/// Appends the lines of the notes of groups.
fn push_groups(text: &mut Vec<u8>, sf: Option<i8>, groups: &[Group<'_>]) -> Result<(), AllocError>
    requires sf { IfSome sf IsKeySignature }
    requires actual { All (λ g. g.ratio.actual ≤ MOST_UNITS) groups.now }
    ensures { Writes (flat_map (group_text sf) groups.now) text.old result text.new }
{
    'groups: for group in groups {
        push_group(text, sf, group)?;
    }
    Ok(())
}

/// Appends the lines of the notes of a bar, or of its rest where it has no groups.
#[tactic(auto, unfolding(crate::specs::Bars::bar_notes))]
pub(crate) fn push_bar_notes(
    text: &mut Vec<u8>,
    resolution: u16,
    bar: &ScoreBar,
    groups: &[Group<'_>],
) -> Result<(), AllocError>
    requires bar { IsScoreBar bar.now }
    requires actual { All (λ g. g.ratio.actual ≤ MOST_UNITS) groups.now }
    ensures { Writes (bar_notes resolution bar.now groups.now) text.old result text.new }
{
    if groups.is_empty() {
        push_bar_rest(text, resolution, bar)
    } else {
        push_groups(text, bar.sf, groups)
    }
}
