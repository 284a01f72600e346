ghost use Rattle.performance_prepare.specs.Ranges.{is_told};
ghost use Rattle.std.specs.Prelude.{◌≡◌};

/// A part of a whole note, as the meter of a bar or the length of an upbeat: `num` times 1 over `den`.
#[derive(Clone, Copy, Debug, PartialEq, Eq)]
pub struct Fraction {
    /// 0 to 64.
    pub num: u8,
    /// A power of two, 1 to 64.
    pub den: u8,
}

/// What is told of a take. An option that is not given changes nothing.
#[derive(Clone, Copy, Debug, PartialEq, Eq)]
pub struct Options {
    /// The notes of channel 9 are left out.
    pub no_drums: bool,
    /// The notes below this key, 1 to 127, get channels of their own.
    pub split: Option<u8>,
    /// The channel, 0 to 15 but not 9, that two hands played in: the left hand gets a channel of its own.
    pub hands: Option<u8>,
    /// Notes of a channel that begin at most so many milliseconds one after the other, 1 to 100, and sound on are one chord.
    pub strum: Option<u8>,
    /// The one signature, of 1 to 64 beats.
    pub meter: Option<Fraction>,
    /// Quarters a minute as played, 1 to 1,000, where the tempo at tick 0 is in force.
    pub tempo: Option<u16>,
    /// How long before a barline the first note begins.
    pub upbeat: Option<Fraction>,
    /// The one key: sharps where above 0, flats where below, -7 to 7.
    pub key: Option<i8>,
}

impl Options {
    /// Whether anything is told of a take.
    pub fn is_told(&self) -> bool
        ensures { result ≡ is_told self.now }
    {
        self.no_drums
            || self.split.is_some()
            || self.hands.is_some()
            || self.strum.is_some()
            || self.meter.is_some()
            || self.tempo.is_some()
            || self.upbeat.is_some()
            || self.key.is_some()
    }
}
