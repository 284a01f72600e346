ghost use Rattle.derivation.specs.Score.{IsScoreBar};
ghost use Rattle.page_writer.specs.Staves as definitions;
ghost use Rattle.page_writer.specs.Staves.{bars_lines, clef_line, staff_head, staff_lines};
ghost use Rattle.score_words.specs.Writing.{WritesLines};
ghost use Rattle.std.specs.Prelude.{◌≡◌, ◌++◌, ◌∷◌, ◌≤◌, ◌^◌, [], All, None, OnOk, length};

use crate::bar::write_bar;
use crate::graces::silent_graces;
use derivation::ScoreBar;
use notation::{BarGroups, Clef, clef_of};
use rhythm_base::Sound;
use score_words::{push_number, write_lily_changes};
use std::alloc::AllocError;

/// Writes the line that opens the staff of a channel.
fn write_head(text: &mut Vec<u8>, channel: u8) -> Result<(), AllocError>
    ensures { WritesLines (staff_head channel ∷ []) text.old result text.new }
{
    text.extend_from_slice(b"\\new Staff \\with { instrumentName = \"Channel ")?;
    push_number(text, u64::from(channel))?;
    text.extend_from_slice(b"\" shortInstrumentName = \"")?;
    push_number(text, u64::from(channel))?;
    text.extend_from_slice(b"\" } {\n")?;
    Ok(())
}

/// The name of a clef.
fn clef_text(clef: Clef) -> &'static [u8]
    ensures { result.now ≡ definitions.clef_text clef }
{
    match clef {
        Clef::BassBelow => b"bass_8",
        Clef::Bass => b"bass",
        Clef::Treble => b"treble",
        Clef::TrebleAbove => b"treble^8",
    }
}

/// Writes the line of a clef.
fn write_clef(text: &mut Vec<u8>, clef: Clef) -> Result<(), AllocError>
    ensures { WritesLines (clef_line clef ∷ []) text.old result text.new }
{
    text.extend_from_slice(b"\\clef \"")?;
    text.extend_from_slice(clef_text(clef))?;
    text.extend_from_slice(b"\"\n")
}

/// Writes the lines of all bars of a voice, where some voice begins each of them with so many grace chords.
fn write_bars(
    text: &mut Vec<u8>,
    first: bool,
    bars: &[ScoreBar],
    most: &[usize],
    groups: &[BarGroups],
) -> Result<(), AllocError>
    requires bars { All IsScoreBar bars.now }
    requires most { length most.now ≡ length bars.now }
    requires groups { length groups.now ≡ length bars.now }
    ensures { WritesLines (bars_lines first None bars.now most.now groups.now) text.old result text.new }
{
    let mut before = None;
    'bars: for (number, bar) in bars.iter().enumerate() {
        let bar_groups = &groups[number];
        let own = bar_groups.groups.as_slice();
        write_lily_changes(text, first, before, bar)?;
        let silent = silent_graces(before, bar, most[number], own);
        write_bar(text, bar, silent, own)?;
        before = Some(*bar);
    }
    Ok(())
}

/// Writes the staff of a channel, with the sounds of its voice and their groups in each bar. The first staff says the tempos.
pub(crate) fn write_staff(
    text: &mut Vec<u8>,
    first: bool,
    bars: &[ScoreBar],
    most: &[usize],
    channel: u8,
    sounds: &[Sound],
    groups: &[BarGroups],
) -> Result<(), AllocError>
    requires bars { All IsScoreBar bars.now }
    requires most { length most.now ≡ length bars.now }
    requires groups { length groups.now ≡ length bars.now }
    requires sounds { length sounds.now ≤ 2 ^ 32 }
    ensures { WritesLines (staff_lines first bars.now most.now channel sounds.now groups.now) text.old result text.new }
{
    write_head(text, channel)?;
    write_clef(text, clef_of(sounds))?;
    write_bars(text, first, bars, most, groups)?;
    text.extend_from_slice(b"\\bar \"|.\"\n}\n")?;
    Ok(())
}
