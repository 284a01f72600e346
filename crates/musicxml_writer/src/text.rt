ghost use Rattle.derivation.specs.Score.{IsScore, IsScoreBar};
ghost use Rattle.derivation.specs.WellSounded.{AreWellSounded};
ghost use Rattle.musicxml_writer.specs.Text.{IsMusicXml, WritesParts, head, part_list};
ghost use Rattle.rhythm_base.specs.declared.limits.TheConstants.{MOST_BARS};
ghost use Rattle.score_words.specs.Writing.{Writes};
ghost use Rattle.std.specs.Prelude.{◌≡◌, ◌≤◌, All, IfOk, length};

use crate::elements::{close_line, open};
use crate::list::push_listed_parts;
use crate::part::push_part;
use derivation::{Score, ScoreBar, VoiceSounds};
use rhythm_base::Units;
use std::alloc::{AllocError, Global};

/// The lines before the list of parts.
const HEAD: &[u8] = b"<?xml version=\"1.0\" encoding=\"UTF-8\"?>
<!DOCTYPE score-partwise PUBLIC \"-//Recordare//DTD MusicXML 4.0 Partwise//EN\" \"http://www.musicxml.org/dtds/partwise.dtd\">
<score-partwise version=\"4.0\">
";

/// Appends the lines before the list of parts.
#[tactic(auto, unfolding(crate::specs::Text::head))]
fn push_head(text: &mut Vec<u8>) -> Result<(), AllocError>
    ensures { Writes head text.old result text.new }
{
    text.extend_from_slice(HEAD)
}

/// Appends the list of parts.
#[tactic(auto, unfolding(crate::specs::Text::part_list))]
fn push_list(text: &mut Vec<u8>, channels: &[u8]) -> Result<(), AllocError>
    ensures { Writes (part_list channels.now) text.old result text.new }
{
    open(text, "part-list")?;
    text.push(b'\n')?;
    push_listed_parts(text, channels)?;
    close_line(text, "part-list")
}

/// Appends the lines of the parts of voices.
fn push_parts(
    alloc: Global,
    text: &mut Vec<u8>,
    resolution: Units,
    bars: &[ScoreBar],
    voices: &[VoiceSounds],
) -> Result<(), AllocError>
    requires bars { All IsScoreBar bars.now }
    requires few_bars { length bars.now ≤ MOST_BARS }
    requires voices { All (AreWellSounded resolution (length bars.now)) voices.now }
    ensures { WritesParts resolution bars.now voices.now text.old result text.new }
{
    'voices: for (index, voice) in voices.iter().enumerate() {
        let sounds = voice.sounds(alloc)?;
        push_part(alloc, text, resolution, index + 1, bars, sounds.as_slice())?;
    }
    Ok(())
}

/// The MusicXML text of a score, a version 4.0 that readers of 3.1 know, whose voices are on these channels, counted from 0. It fails
/// where there is not enough memory, and there alone.
#[tactic(auto, unfolding(crate::specs::Text::score_text))]
pub fn write_musicxml(alloc: Global, score: &Score, channels: &[u8]) -> Result<Vec<u8>, AllocError>
    requires score { IsScore score.now }
    requires few_bars { length score.now.bars ≤ MOST_BARS }
    requires same { length channels.now ≡ length score.now.voices }
    requires channels { All (λ channel. channel ≤ 15) channels.now }
    ensures { IfOk result (λ v. IsMusicXml score.now channels.now v.items) }
{
    let mut text = Vec::new(alloc);
    push_head(&mut text)?;
    push_list(&mut text, channels)?;
    let (bars, voices) = (&score.bars, &score.voices);
    push_parts(alloc, &mut text, score.units(), bars, voices)?;
    close_line(&mut text, "score-partwise")?;
    Ok(text)
}
