ghost use Rattle.kern_writer.specs.Columns.{RiseFrom};
ghost use Rattle.kern_writer.specs.Records.{AreBarRecords};
ghost use Rattle.derivation.specs.Score.{IsScoreBar};
ghost use Rattle.kern_writer.specs.Writing.{IsBounded, WritesSome};
ghost use Rattle.kern_writer.specs.Ahead.{AreOfBar, laters};
ghost use Rattle.derivation.specs.Ahead.{later_sounds};
ghost use Rattle.voice_values.specs.Ahead.{FillBar};
ghost use Rattle.std.specs.Prelude.{◌≡◌, ◌<◌, ◌^◌, All, IfSome, OnOk, map};

use crate::ahead::{VoiceAhead, columns_of, read_bars};
use crate::changes::write_changes;
use crate::column::Column;
use crate::data::write_data;
use crate::fault::ScoreFault;
use crate::kern_text::KernText;
use crate::shared::{SharedToken, write_shared};
use derivation::ScoreBar;
use rhythm_base::Units;
use std::alloc::Global;

/// Writes the records of the bar of this number, counted from 0, with these columns.
fn write_columns(
    text: &mut KernText,
    before: Option<ScoreBar>,
    bar: &ScoreBar,
    number: usize,
    columns: &mut [Column],
) -> Result<(), ScoreFault>
    requires text { IsBounded text.old }
    requires before { IfSome before IsScoreBar }
    requires bar { IsScoreBar bar.now }
    requires number { number < 2 ^ 63 }
    requires columns { All (RiseFrom 0) columns.old }
    ensures { WritesSome (AreBarRecords before bar.now number columns.old) text.old result text.new }
{
    let voices = columns.len();
    write_changes(text, voices, before, bar)?;
    write_shared(text, voices, SharedToken::Barline(number as u64 + 1))?;
    write_data(text, columns)
}

/// Writes the records of the bar of this number, counted from 0, whose sounds are the next of each voice. They are passed over.
pub(crate) fn write_bar(
    alloc: Global,
    text: &mut KernText,
    resolution: Units,
    before: Option<ScoreBar>,
    bar: &ScoreBar,
    number: usize,
    ahead: &mut [VoiceAhead],
) -> Result<(), ScoreFault>
    requires text { IsBounded text.old }
    requires before { IfSome before IsScoreBar }
    requires bar { IsScoreBar bar.now }
    requires number { number < 2 ^ 63 }
    requires full { All (FillBar resolution number) (laters ahead.old) }
    ensures records { WritesSome (AreOfBar resolution before bar.now number ahead.old) text.old result text.new }
    ensures rest { OnOk result (laters ahead.new ≡ map (later_sounds number) (laters ahead.old)) }
{
    let _units = resolution.count();
    read_bars(alloc, number, ahead)?;
    let mut columns = columns_of(alloc, resolution, bar, ahead)?;
    write_columns(text, before, bar, number, &mut columns)
}
