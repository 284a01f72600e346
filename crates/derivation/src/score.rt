ghost use Rattle.derivation.specs.Score.{IsScore};
ghost use Rattle.std.specs.Prelude.{◌≡◌};

use crate::voice_sounds::VoiceSounds;
use rhythm_base::Units;
use std::marker::Model;

/// A bar as it is written.
#[derive(Clone, Copy, Debug, PartialEq, Eq)]
pub struct ScoreBar {
    /// The number of beats of the signature, 1 to 64.
    pub num: u8,
    /// The note value of a beat: a power of two up to 64.
    pub den: u8,
    /// Microseconds of a quarter note at the bar's start.
    pub tempo: u32,
    /// The sharps of the key in force at the bar's start, flats below 0: -7 to 7; none where there is no key yet.
    pub sf: Option<i8>,
}

/// A score: its bars, each of so many units, and the sounds of each voice over them.
#[derive(Drop)]
pub struct Score {
    /// The units of a bar.
    pub resolution: u16,
    pub bars: Vec<ScoreBar>,
    /// The voices by rising channel.
    pub voices: Vec<VoiceSounds>,
}

impl Model for Score {
    ghost use Rattle.derivation.specs.Score.{Score};

    ghost Value = { Score };

    ghost view = { λ s. record { resolution = s.resolution; bars = s.bars.items; voices = s.voices.items } };
}

impl Score {
    /// The units of a bar.
    pub fn units(&self) -> Units
        requires { IsScore self.now }
        ensures { result ≡ self.now.resolution }
    {
        Units::of(self.resolution)
    }
}
