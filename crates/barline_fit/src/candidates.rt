ghost use Rattle.barline_fit.specs.Candidates.{ticks_of};
ghost use Rattle.rhythm_base.specs.declared.limits.TheConstants.{LATEST_TICK};
ghost use Rattle.std.specs.Prelude.{◌≡◌, ◌≤◌, ◌+◌, ◌-◌, ◌/◌, length};

/// The most candidates for a barline.
pub const MOST_CANDIDATES: u64 = 256;

/// The ticks that are tried for a barline: `low`, `low + step` and so on up to `high`, which is one of them where a step meets it.
#[derive(Clone, Copy, Debug, PartialEq, Eq)]
pub struct Candidates {
    /// The number of the barline: that of the bar which it starts, from 1, or the number of bars for the last barline.
    pub bar: u32,
    /// The first tick, no later than `high`.
    pub low: u64,
    /// No tick is later; 2,000,000,000 at most.
    pub high: u64,
    /// From one tick to the next, 1 or more.
    pub step: u64,
}

/// A tick for a barline.
#[derive(Clone, Copy, Debug, PartialEq, Eq)]
pub struct Candidate {
    /// The number of the barline, as of `Candidates`.
    pub bar: u32,
    /// Its tick.
    pub tick: u64,
}

impl Candidates {
    /// How many ticks there are: one more than steps from `low` to `high`.
    pub fn count(&self) -> u64
        requires order { self.now.low ≤ self.now.high }
        requires step { 1 ≤ self.now.step }
        requires high { self.now.high ≤ LATEST_TICK }
        ensures ticks { result ≡ length (ticks_of self.now) }
        ensures steps { result ≡ (self.now.high - self.now.low) / self.now.step + 1 }
    {
        (self.high - self.low) / self.step + 1
    }
}
