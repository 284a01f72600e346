use std::error::Error;
use std::fmt;

/// What a performance has a limit of.
#[derive(Clone, Copy, Debug, PartialEq, Eq)]
pub enum LimitKind {
    /// 65,536 notes.
    Notes,
    /// 4,096 bars.
    Bars,
    /// 16,384 cells: voices times bars.
    Cells,
    /// The last barline at tick 2,000,000,000.
    Line,
}

/// Why an edit is refused. A refused edit changes nothing.
#[derive(Clone, Copy, Debug, PartialEq, Eq)]
pub enum EditFault {
    /// The channel has no voice.
    NoVoice(u8),
    /// There is no such bar; for a barline, it is the first one or there are fewer bars.
    NoBar(u32),
    /// The end is before the onset.
    BadSpan,
    /// No note has that channel, key and onset.
    NoNote,
    /// Another note has that channel, key and onset.
    SameNote,
    /// The note would begin at or after the last barline, or end after it. `last` is its tick.
    PastEnd { last: u64 },
    /// The tick is not between the neighbouring barlines.
    BarlineOrder { low: u64, high: u64 },
    /// A note would begin at or after the last barline, or end after it: the least such onset.
    NoteOutside { onset: u64 },
    /// A note begins in the last bar or ends in it: the least such onset.
    NotEmpty { onset: u64 },
    /// There is one bar.
    OneBar,
    /// The count after the edit is above its limit.
    Limit { what: LimitKind, count: u64 },
    /// A voice has no fitting derivation after the edit: the least such channel and its dead bar.
    NoDerivation { channel: u8, bar: u32 },
    /// Want of memory.
    Memory,
}

impl fmt::Display for LimitKind {
    fn fmt<W: fmt::Write>(&self, f: &mut fmt::Formatter<W>) -> fmt::Result {
        f.write_str(match self {
            LimitKind::Notes => "notes",
            LimitKind::Bars => "bars",
            LimitKind::Cells => "cells",
            LimitKind::Line => "the last barline",
        })
    }
}

impl fmt::Display for EditFault {
    fn fmt<W: fmt::Write>(&self, f: &mut fmt::Formatter<W>) -> fmt::Result {
        match self {
            EditFault::NoVoice(channel) => write!(f, "channel {channel} has no voice"),
            EditFault::NoBar(bar) => write!(f, "there is no bar {bar} here"),
            EditFault::BadSpan => write!(f, "the note would end before it begins"),
            EditFault::NoNote => write!(f, "there is no such note"),
            EditFault::SameNote => write!(f, "there is such a note already"),
            EditFault::PastEnd { last } => write!(
                f,
                "the note would not lie before the last barline at tick {last}"
            ),
            EditFault::BarlineOrder { low, high } => write!(
                f,
                "the barline would not lie between ticks {low} and {high}"
            ),
            EditFault::NoteOutside { onset } => write!(
                f,
                "the note at tick {onset} would lie past the last barline"
            ),
            EditFault::NotEmpty { onset } => write!(
                f,
                "the last bar has a note that begins at tick {onset}"
            ),
            EditFault::OneBar => write!(f, "there is only one bar"),
            EditFault::Limit { what, count } => write!(f, "{count} is past the limit of {what}"),
            EditFault::NoDerivation { channel, bar } => write!(
                f,
                "channel {channel} would have no derivation past bar {bar}"
            ),
            EditFault::Memory => write!(f, "not enough memory"),
        }
    }
}

impl Error for EditFault {}
