/// A note of a performance. Ticks count from the beginning of the file.
#[derive(Clone, Copy, Debug, PartialEq, Eq)]
pub struct Note {
    /// The MIDI channel, 0 to 15. A channel is a voice.
    pub channel: u8,
    /// The MIDI key number, 0 to 127.
    pub key: u8,
    /// The tick at which it begins.
    pub onset: u64,
    /// The tick at which it ends, not before its onset.
    pub end: u64,
}

/// A bar of a performance: it runs to the start of the next bar, and the last one to the last barline.
#[derive(Clone, Copy, Debug, PartialEq, Eq)]
pub struct Bar {
    /// The tick at which it begins.
    pub start: u64,
    /// Beats, 1 to 64.
    pub num: u8,
    /// The value of a beat as the part of a whole note, a power of two up to 64.
    pub den: u8,
}
