ghost use Rattle.derivation.specs.Score.{IsScoreBar};
ghost use Rattle.lily_writer.specs.Staves.{spans_of};
ghost use Rattle.lily_writer.specs.Writing.{WritesBars, WritesStaff};
ghost use Rattle.std.specs.Prelude.{◌^◌, ◌≤◌, All, length};
ghost use Rattle.voice_events.specs.Parts as parts;
ghost use Rattle.voice_events.specs.VoiceEvents.{AreOfVoice};

use crate::ahead::{Ahead, write_bar};
use crate::extent::Extent;
use derivation::ScoreBar;
use rhythm_base::Units;
use score_words::{has_flats, write_lily_changes};
use std::alloc::{AllocError, Global};
use voice_events::{KernEvent, score_bar_parts, score_parts};

/// Writes the lines of all bars.
fn write_bars(
    alloc: Global,
    text: &mut Vec<u8>,
    resolution: Units,
    bars: &[ScoreBar],
    first: bool,
    events: &[KernEvent],
) -> Result<(), AllocError>
    requires bars { All IsScoreBar bars.now }
    requires few_bars { length bars.now ≤ 2 ^ 32 }
    requires events { AreOfVoice resolution (parts.score_parts resolution bars.now) (spans_of events.now) }
    ensures { WritesBars resolution first bars.now (spans_of events.now) text.old result text.new }
{
    let units = resolution.count();
    let mut ahead = Ahead {
        events,
        at: 0,
        end: score_parts(bars, units),
    };
    let mut from = 0;
    let mut before = None;
    'bars: for bar in bars {
        write_lily_changes(text, first, before, bar)?;
        let to = from + score_bar_parts(bar, units);
        let extent = Extent { from, to };
        ahead = write_bar(alloc, text, has_flats(bar), resolution, extent, ahead)?;
        text.extend_from_slice(b"|\n")?;
        from = to;
        before = Some(*bar);
    }
    Ok(())
}

/// Writes the staff of a voice. The first staff says the tempos.
pub(crate) fn write_staff(
    alloc: Global,
    text: &mut Vec<u8>,
    resolution: Units,
    bars: &[ScoreBar],
    first: bool,
    events: &[KernEvent],
) -> Result<(), AllocError>
    requires bars { All IsScoreBar bars.now }
    requires few_bars { length bars.now ≤ 2 ^ 32 }
    requires events { AreOfVoice resolution (parts.score_parts resolution bars.now) (spans_of events.now) }
    ensures { WritesStaff resolution first bars.now (spans_of events.now) text.old result text.new }
{
    text.extend_from_slice(b"\\new Staff {\n")?;
    write_bars(alloc, text, resolution, bars, first, events)?;
    text.extend_from_slice(b"}\n")
}
