ghost use Rattle.std.specs.Prelude.{◌≡◌};
ghost use Rattle.smf_reader.specs.declared.fault.SmfFault.TheVariants.{Memory};

use std::alloc::{AllocError, AllocFailed};
use std::error::Error;
use std::fmt;

/// Why bytes could not be read as a Standard MIDI File: the first fault in the order of reading. Places are offsets from
/// the beginning of the bytes.
#[derive(Clone, Copy, Debug, PartialEq, Eq)]
pub enum SmfFault {
    /// There is no header chunk of six bytes or more at the front.
    NotSmf,
    /// The format is this number, which is above 1.
    Format(u16),
    /// The division counts the frames of a film.
    Smpte,
    /// A quarter note has no ticks.
    ZeroDivision,
    /// More bytes are needed here, at the end of the file or of a track's chunk.
    Truncated { at: u64 },
    /// The fourth byte of a quantity, which has the high bit.
    BadQuantity { at: u64 },
    /// A data byte where a status is needed: no channel message stands before it in the track.
    NoStatus { at: u64 },
    /// A status that no event of a file has.
    BadStatus { at: u64 },
    /// A byte above 127 where a data byte is needed.
    BadData { at: u64 },
    /// A meta event whose length or content its type does not have.
    BadMeta { at: u64 },
    /// A delta time that leads past tick 1,000,000,000.
    TooLate { at: u64 },
    /// There was not enough memory.
    Memory,
}

impl fmt::Display for SmfFault {
    fn fmt<W: fmt::Write>(&self, f: &mut fmt::Formatter<W>) -> fmt::Result {
        match self {
            SmfFault::NotSmf => write!(f, "the file is no Standard MIDI File"),
            SmfFault::Format(format) => write!(f, "files of format {format} are not read"),
            SmfFault::Smpte => write!(f, "the division counts the frames of a film"),
            SmfFault::ZeroDivision => write!(f, "a quarter note has no ticks"),
            SmfFault::Truncated { at } => write!(f, "the file ends too early at byte {at}"),
            SmfFault::BadQuantity { at } => write!(f, "the number at byte {at} has too many bytes"),
            SmfFault::NoStatus { at } => write!(f, "a status byte is missing at byte {at}"),
            SmfFault::BadStatus { at } => write!(f, "no event has the status at byte {at}"),
            SmfFault::BadData { at } => write!(f, "byte {at} is no data byte"),
            SmfFault::BadMeta { at } => write!(
                f,
                "the meta event at byte {at} has a wrong length or content"
            ),
            SmfFault::TooLate { at } => write!(
                f,
                "the delta time at byte {at} leads past the latest tick"
            ),
            SmfFault::Memory => write!(f, "not enough memory"),
        }
    }
}

impl Error for SmfFault {}

impl From<AllocError> for SmfFault {
    ghost from_gives = { λ _ e. e ≡ Memory };

    fn from(_error: AllocError) -> SmfFault {
        SmfFault::Memory
    }
}

impl<T: Drop> From<AllocFailed<T>> for SmfFault {
    ghost from_gives = { λ _ e. e ≡ Memory };

    fn from(_error: AllocFailed<T>) -> SmfFault {
        SmfFault::Memory
    }
}
