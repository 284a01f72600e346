/// What an event of a MIDI track says. Channels are 0 to 15, keys 0 to 127.
#[derive(Clone, Copy, Debug, PartialEq, Eq)]
pub enum What {
    /// A note-on of a velocity above 0.
    On { channel: u8, key: u8 },
    /// A note-off, or a note-on of velocity 0.
    Off { channel: u8, key: u8 },
    /// Microseconds of a quarter note, 1 to 16,777,215.
    Tempo(u32),
    /// A time signature: `num` beats of the value 1 over 2 to the power `dd`.
    Signature { num: u8, dd: u8 },
    /// Sharps of a key signature where above 0, flats where below, -7 to 7.
    KeySig(i8),
}

/// An event of a MIDI track.
#[derive(Clone, Copy, Debug, PartialEq, Eq)]
pub struct Event {
    /// The sum of the delta times up to it, at most 1,000,000,000.
    pub tick: u64,
    /// What it says.
    pub what: What,
}

/// A change of tempo.
#[derive(Clone, Copy, Debug, PartialEq, Eq)]
pub struct Tempo {
    pub tick: u64,
    /// Microseconds of a quarter note from this tick on, 1 to 16,777,215.
    pub micros: u32,
}

/// A change of key.
#[derive(Clone, Copy, Debug, PartialEq, Eq)]
pub struct KeyMark {
    pub tick: u64,
    /// Sharps where above 0, flats where below, -7 to 7.
    pub sf: i8,
}

/// A change of signature, as the file writes it: `num` beats of the value 1 over 2 to the power `dd`.
#[derive(Clone, Copy, Debug, PartialEq, Eq)]
pub struct Signature {
    pub tick: u64,
    pub num: u8,
    pub dd: u8,
}
