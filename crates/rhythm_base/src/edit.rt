use crate::shape::Shape;

/// A change of a performance. Channels are 0 to 15, keys 0 to 127, bars 0 to 4,096 and ticks 0 to 2,000,000,000.
#[derive(Drop)]
pub enum Edit {
    /// Adds a note.
    Add {
        channel: u8,
        key: u8,
        onset: u64,
        end: u64,
    },
    /// Takes a note out.
    Drop {
        channel: u8,
        key: u8,
        onset: u64,
    },
    /// Gives a note another onset and leaves its length.
    Move {
        channel: u8,
        key: u8,
        onset: u64,
        to: u64,
    },
    /// Sets the start of a bar, or the last barline where `bar` is the number of bars.
    Barline {
        bar: u32,
        tick: u64,
    },
    /// Gives the tree of one bar of a voice its shape, in place of an older one.
    Pin {
        channel: u8,
        bar: u32,
        shape: Shape,
    },
    /// Takes a pin off. Where there is none it changes nothing.
    Unpin {
        channel: u8,
        bar: u32,
    },
    /// Adds a bar of the last bar's signature and its nominal length.
    AddBar,
    /// Drops the last bar and its pins.
    DropBar,
}
