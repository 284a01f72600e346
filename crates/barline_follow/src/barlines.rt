ghost use Rattle.barline_follow.specs.Bars as bars;
ghost use Rattle.barline_follow.specs.Script as scripts;
ghost use Rattle.rhythm_base.specs.Barlines as nominals;
ghost use Rattle.rhythm_base.specs.Lists.{last_end};
ghost use Rattle.rhythm_base.specs.Performance.{IsWellFormed};
ghost use Rattle.rhythm_base.specs.declared.limits.TheConstants.{MOST_BARS};
ghost use Rattle.std.specs.Prelude.{◌≡◌, ◌+◌, ◌*◌, ◌<◌, ◌≤◌, ◌^◌, IfOk, length, min};

use rhythm_base::{Bar, Performance};
use std::alloc::{AllocError, Global};

/// The ticks of a whole bar of its signature.
fn nominal(division: u16, bar: &Bar) -> u64
    requires { 1 ≤ bar.now.den }
    ensures value { result ≡ nominals.nominal division bar.now }
    ensures short { result < 2 ^ 27 }
{
    4 * u64::from(division) * u64::from(bar.num) / u64::from(bar.den)
}

/// The ticks of a whole bar of that number. Past the last bar of the performance they are those of the last.
pub fn whole_bar(performance: &Performance, number: usize) -> u64
    ensures value { result ≡ bars.whole_bar performance.now number }
    ensures short { result < 2 ^ 27 }
    ensures some { 1 ≤ result }
{
    let bars = performance.bars();
    let place = number.min(bars.len() - 1);
    nominal(performance.division(), &bars[place])
}

/// A quarter of the shortest whole bar, and at least a tick.
pub fn pace(performance: &Performance) -> u64
    ensures value { result ≡ scripts.pace performance.now }
    ensures some { 1 ≤ result }
    ensures short { result < 2 ^ 27 }
{
    let bars = performance.bars();
    let division = performance.division();
    let mut least = nominal(division, &bars[0]);
    'bars: for bar in &bars[1..] {
        least = least.min(nominal(division, bar));
    }
    (least / 4).max(1)
}

/// The start of each bar, and the last barline.
pub fn barlines(alloc: Global, performance: &Performance) -> Result<Vec<u64>, AllocError>
    ensures value { IfOk result (λ v. v.items ≡ bars.barlines_of performance.now) }
{
    let bars = performance.bars();
    let mut ticks = Vec::with_capacity(alloc, bars.len() + 1)?;
    'bars: for bar in bars {
        ticks.push(bar.start)?;
    }
    ticks.push(performance.last())?;
    Ok(ticks)
}

/// The last of these barlines, 0 where there is none.
pub fn last_barline(ticks: &[u64]) -> u64
    ensures { result ≡ last_end 0 ticks.now }
{
    match ticks {
        [] => 0,
        [.., tick] => *tick,
    }
}

/// The barlines with more of them at the end, each so many ticks after the one before, up to this number of barlines.
pub fn lengthened(
    alloc: Global,
    bar: u64,
    count: usize,
    ticks: &[u64],
) -> Result<Vec<u64>, AllocError>
    requires { last_end 0 ticks.now + count * bar < 2 ^ 64 }
    ensures { IfOk result (λ v. v.items ≡ scripts.lengthened bar count ticks.now) }
{
    let mut longer = ticks.to_vec(alloc)?;
    let mut last = last_barline(ticks);
    'bars: for _number in ticks.len()..count {
        last += bar;
        longer.push(last)?;
    }
    Ok(longer)
}
