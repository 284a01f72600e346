ghost use Rattle.derivation.specs.TimedLeaves.{IsTimedBar, timed_leaf};
ghost use Rattle.std.specs.Prelude.{◌≡◌};

use rhythm_base::{Ending, SoundKind, Units};

/// A bar of a voice, as its leaves take their places in it.
#[derive(Clone, Copy, PartialEq, Eq)]
pub struct TimedBar {
    /// The bar, numbered from 0.
    pub number: u32,
    /// The tick at which it starts.
    pub start: u64,
    /// Its length in ticks.
    pub length: u64,
    /// Its units.
    pub resolution: Units,
}

/// A leaf of a voice, as the chords are read along it.
#[derive(Clone, Copy, Debug, PartialEq, Eq)]
pub struct TimedLeaf {
    /// The bar, numbered from 0.
    pub bar: u32,
    /// The unit of the bar at which it begins.
    pub place: u16,
    /// Its width in units.
    pub width: u16,
    /// How it sounds.
    pub kind: SoundKind,
    /// The last tick that is not after its middle.
    pub middle: u64,
}

impl TimedBar {
    /// A leaf of the bar.
    pub fn leaf(&self, ending: Ending, place: u16, width: u16) -> TimedLeaf
        requires { IsTimedBar self.now }
        ensures { result ≡ timed_leaf self.now (record { ending = ending; place = place; width = width }) }
    {
        let units = u64::from(self.resolution.count());
        let halves = 2 * u64::from(place) + u64::from(width);
        TimedLeaf {
            bar: self.number,
            place,
            width,
            kind: ending.sound_kind(),
            middle: (2 * self.start * units + halves * self.length) / (2 * units),
        }
    }
}
