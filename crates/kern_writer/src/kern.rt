ghost use Rattle.rhythm_base.specs.declared.limits.TheConstants.{LONGEST_SCORE};
ghost use Rattle.kern_writer.specs.declared.fault.ScoreFault.TheVariants.{TooLong};
ghost use Rattle.std.specs.Prelude.{Err};
ghost use Rattle.kern_writer.specs.Records.{AreOfAllBars, AreRecordsOf};
ghost use Rattle.derivation.specs.Score.{IsScore, IsScoreBar};
ghost use Rattle.derivation.specs.WellSounded.{AreWellSounded};
ghost use Rattle.kern_writer.specs.Text.{IsScoreText, IsTooLong};
ghost use Rattle.kern_writer.specs.Writing.{IsBounded, WritesSome};
ghost use Rattle.std.specs.Prelude.{◌≡◌, ◌≤◌, ℕ, All, IfOk, length};

use crate::ahead::voices_ahead;
use crate::bar::write_bar;
use crate::fault::ScoreFault;
use crate::kern_text::KernText;
use crate::shared::{SharedToken, write_shared};
use derivation::{Score, ScoreBar, VoiceSounds};
use rhythm_base::Units;
use std::alloc::{AllocError, Global};

/// Writes the records of all bars.
fn write_bars(
    alloc: Global,
    text: &mut KernText,
    resolution: Units,
    bars: &[ScoreBar],
    voices: &[VoiceSounds],
) -> Result<(), ScoreFault>
    requires text { IsBounded text.old }
    requires bars { All IsScoreBar bars.now }
    requires voices { All (AreWellSounded resolution (length bars.now)) voices.now }
    ensures { WritesSome (AreOfAllBars resolution bars.now voices.now) text.old result text.new }
{
    let _units = resolution.count();
    let mut ahead = voices_ahead(alloc, voices)?;
    let mut before = None;
    'bars: for (number, bar) in bars.iter().enumerate() {
        write_bar(alloc, text, resolution, before, bar, number, &mut ahead)?;
        before = Some(*bar);
    }
    Ok(())
}

/// Writes all records of a score.
fn write_records(
    alloc: Global,
    text: &mut KernText,
    resolution: u16,
    bars: &[ScoreBar],
    voices: &[VoiceSounds],
) -> Result<(), ScoreFault>
    requires text { IsBounded text.old }
    requires score { IsScore (record { resolution = resolution; bars = bars.now; voices = voices.now }) }
    ensures { WritesSome (AreRecordsOf resolution bars.now voices.now) text.old result text.new }
{
    let columns = voices.len();
    write_shared(text, columns, SharedToken::Kern)?;
    write_bars(alloc, text, Units::of(resolution), bars, voices)?;
    write_shared(text, columns, SharedToken::LastBarline)?;
    write_shared(text, columns, SharedToken::End)
}

/// The **kern text of a score, written in one pass.
pub fn write_kern(alloc: Global, score: &Score) -> Result<Vec<u8>, ScoreFault>
    requires { IsScore score.now }
    ensures text { IfOk result (λ v. IsScoreText score.now v.items) }
    ensures short { IfOk result (λ v. length v.items ≤ LONGEST_SCORE) }
    ensures too_long { (line : ℕ) → result ≡ Err (TooLong line) → IsTooLong score.now line }
{
    let mut text = KernText::new(alloc);
    write_records(
        alloc,
        &mut text,
        score.resolution,
        &score.bars,
        &score.voices,
    )?;
    Ok(text.bytes)
}
