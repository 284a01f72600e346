ghost use Rattle.rhythm_base.specs.declared.limits.TheConstants.{LATEST_TICK, LATEST_EVENT, MOST_DIVISION};
ghost use Rattle.std.specs.Prelude.{◌≡◌, ◌≤◌, ◌<◌, ◌↔◌, IsTrue, IfOk, map};
ghost use Rattle.std.specs.List.Sorted.{IsNonDecreasing};
ghost use Rattle.rhythm_base.specs.Bars.{AreEnough, IsAtBarline};
ghost use Rattle.rhythm_base.specs.Lists.{last_of};
ghost use Rattle.tempo_map.specs.Laying.{AreBars, Lays};

use crate::bar::{bar_at, nominal};
use rhythm_base::{Bar, BarFault, Signature};
use std::alloc::Global;
use std::marker::Model;

/// The bars of a file.
#[derive(Drop)]
pub struct Laid {
    /// The bars, 1 to 4,096, side by side from tick 0.
    pub bars: Vec<Bar>,
    /// The tick of the last barline.
    pub last: u64,
}

impl Model for Laid {
    ghost use Rattle.tempo_map.specs.Laying.{Laid};

    ghost Value = { Laid };

    ghost view = { λ l. record { bars = l.bars.items; last = l.last } };
}

/// Whether the onset is in the last sixteenth of the last bar, which ends at `end`.
fn is_at_barline(bars: &[Bar], end: u64, onset: u64) -> bool
    requires near { end ≤ LATEST_TICK }
    requires before { onset < end }
    ensures { IsTrue result ↔ IsAtBarline onset (last_of bars.now) end }
{
    match bars.last() {
        Some(bar) => { bar.start <= onset && 15 * (end - bar.start) < 16 * (onset - bar.start) }
        None => false,
    }
}

/// Whether bars up to `end` are enough for notes of this last onset and this last end.
fn are_enough(bars: &[Bar], end: u64, last_onset: u64, last_end: u64) -> bool
    requires { end ≤ LATEST_TICK }
    ensures { IsTrue result ↔ AreEnough last_onset last_end bars.now end }
{
    last_end <= end && last_onset < end && !is_at_barline(bars, end, last_onset)
}

/// The fewest bars whose last barline is at or after the last end of a note and after the last onset, and one more where
/// the last onset is in the last sixteenth of the last of them, so that it may be carried over its barline. A bar has the
/// signature in force at its start; a signature that no bar takes may be out of range. The first bar that cannot be laid
/// is a fault.
pub fn lay_bars(
    alloc: Global,
    division: u16,
    signatures: &[Signature],
    last_onset: u64,
    last_end: u64,
) -> Result<Laid, BarFault>
    requires some_tick { 1 ≤ division }
    requires few_ticks { division ≤ MOST_DIVISION }
    requires signatures { IsNonDecreasing (map (λ s. s.tick) signatures.now) }
    requires onset { last_onset ≤ last_end }
    requires end { last_end ≤ LATEST_EVENT }
    ensures laid { Lays division signatures.now last_onset last_end result }
    ensures formed { IfOk result (λ l. AreBars division l.bars l.last) }
{
    let mut bars = Vec::new(alloc);
    let mut end = 0;
    'bars: while !are_enough(bars.as_slice(), end, last_onset, last_end) {
        let bar = bar_at(division, signatures, bars.len(), end)?;
        bars.push(bar)?;
        end += nominal(division, bar);
    }
    Ok(Laid { bars, last: end })
}
