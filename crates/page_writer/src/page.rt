ghost use Rattle.derivation.specs.Score.{IsScore, IsScoreBar};
ghost use Rattle.derivation.specs.WellSounded.{AreWellSounded};
ghost use Rattle.page_writer.specs.Page as definitions;
ghost use Rattle.page_writer.specs.Page.{IsPage, closing_lines, head_lines, opening_lines, paper_lines, size_line, tail_lines};
ghost use Rattle.page_writer.specs.Writing.{WritesStaves};
ghost use Rattle.rhythm_base.specs.declared.limits.TheConstants.{MOST_BARS};
ghost use Rattle.score_words.specs.Writing.{WritesLines};
ghost use Rattle.std.specs.Prelude.{◌≡◌, ◌≤◌, ◌∷◌, [], All, IfOk, length};

use crate::graces::most_graces;
use crate::staff::write_staff;
use derivation::{Score, ScoreBar, VoiceSounds};
use notation::voice_groups;
use rhythm_base::Units;
use score_words::push_number;
use std::alloc::{AllocError, Global};

/// How high a staff is, in points, where there are so many.
fn staff_size(staves: usize) -> u64
    ensures { result ≡ definitions.staff_size staves }
{
    match staves {
        0..=2 => 18,
        3..=4 => 16,
        5..=7 => 13,
        _ => 11,
    }
}

/// Writes the line of the size of so many staves.
fn write_size(text: &mut Vec<u8>, staves: usize) -> Result<(), AllocError>
    ensures { WritesLines (size_line staves ∷ []) text.old result text.new }
{
    text.extend_from_slice(b"#(set-global-staff-size ")?;
    push_number(text, staff_size(staves))?;
    text.extend_from_slice(b")\n")?;
    Ok(())
}

/// Writes the lines of the paper and of what opens the score.
fn write_paper(text: &mut Vec<u8>) -> Result<(), AllocError>
    ensures { WritesLines paper_lines text.old result text.new }
{
    text.extend_from_slice(b"\\paper { page-breaking-system-system-spacing = ")?;
    text.extend_from_slice(b"#'((basic-distance . 14) (minimum-distance . 10) (padding . 8)) }\n")?;
    text.extend_from_slice(b"\\score {\n")
}

/// Writes the lines before the staves.
fn write_head(text: &mut Vec<u8>, staves: usize) -> Result<(), AllocError>
    ensures { WritesLines (head_lines staves) text.old result text.new }
{
    text.extend_from_slice(b"\\version \"2.24.0\"\n\\header { tagline = ##f }\n")?;
    write_size(text, staves)?;
    write_paper(text)?;
    Ok(())
}

/// Opens the bracket of several staves.
fn write_opening(text: &mut Vec<u8>, staves: usize) -> Result<(), AllocError>
    ensures { WritesLines (opening_lines staves) text.old result text.new }
{
    if staves > 1 {
        text.extend_from_slice(b"\\new StaffGroup <<\n")?;
    }
    Ok(())
}

/// Closes the bracket of several staves.
fn write_closing(text: &mut Vec<u8>, staves: usize) -> Result<(), AllocError>
    ensures { WritesLines (closing_lines staves) text.old result text.new }
{
    if staves > 1 {
        text.extend_from_slice(b">>\n")?;
    }
    Ok(())
}

/// Writes the lines after the staves.
fn write_tail(text: &mut Vec<u8>) -> Result<(), AllocError>
    ensures { WritesLines tail_lines text.old result text.new }
{
    text.extend_from_slice(b"\\layout { indent = 22\\mm short-indent = 8\\mm ")?;
    text.extend_from_slice(b"\\context { \\Staff \\RemoveEmptyStaves } }\n}\n")
}

/// Writes the staves of the voices by their channels.
fn write_staves(
    alloc: Global,
    text: &mut Vec<u8>,
    resolution: Units,
    bars: &[ScoreBar],
    voices: &[VoiceSounds],
    channels: &[u8],
) -> Result<(), AllocError>
    requires few_bars { length bars.now ≤ MOST_BARS }
    requires bars { All IsScoreBar bars.now }
    requires voices { All (AreWellSounded resolution (length bars.now)) voices.now }
    requires channels { length channels.now ≡ length voices.now }
    ensures { WritesStaves resolution bars.now channels.now voices.now text.old result text.new }
{
    let _units = resolution.count();
    let most = most_graces(alloc, voices, resolution, bars.len())?;
    'voices: for (number, voice) in voices.iter().enumerate() {
        let made = voice.sounds(alloc)?;
        let sounds = made.as_slice();
        let groups = voice_groups(alloc, resolution, bars, sounds)?;
        write_staff(
            text,
            number == 0,
            bars,
            &most,
            channels[number],
            sounds,
            &groups,
        )?;
    }
    Ok(())
}

/// The page of a score, whose voices are of these channels, for LilyPond 2.24. It fails where there is not enough memory, and there alone.
pub fn write_page(alloc: Global, score: &Score, channels: &[u8]) -> Result<Vec<u8>, AllocError>
    requires score { IsScore score.now }
    requires few_bars { length score.now.bars ≤ MOST_BARS }
    requires channels { length channels.now ≡ length score.now.voices }
    ensures { IfOk result (λ v. IsPage score.now channels.now v.items) }
{
    let mut text = Vec::new(alloc);
    let staves = score.voices.len();
    write_head(&mut text, staves)?;
    write_opening(&mut text, staves)?;
    write_staves(
        alloc,
        &mut text,
        score.units(),
        &score.bars,
        &score.voices,
        channels,
    )?;
    write_closing(&mut text, staves)?;
    write_tail(&mut text)?;
    Ok(text)
}
