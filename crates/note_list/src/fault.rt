ghost use Rattle.std.specs.Prelude.{◌≡◌};
ghost use Rattle.note_list.specs.declared.fault.NoteFault.TheVariants.{Memory};

use std::alloc::{AllocError, AllocFailed};
use std::error::Error;
use std::fmt;

/// Why a file has no notes for a performance.
#[derive(Clone, Copy, Debug, PartialEq, Eq)]
pub enum NoteFault {
    /// No note begins.
    NoNotes,
    /// There are more than 65,536 notes: this many.
    TooManyNotes { count: u64 },
    /// There was not enough memory.
    Memory,
}

impl fmt::Display for NoteFault {
    fn fmt<W: fmt::Write>(&self, f: &mut fmt::Formatter<W>) -> fmt::Result {
        match self {
            NoteFault::NoNotes => write!(f, "the file has no notes"),
            NoteFault::TooManyNotes { count } => write!(f, "the file has too many notes: {count}"),
            NoteFault::Memory => write!(f, "not enough memory"),
        }
    }
}

impl Error for NoteFault {}

impl From<AllocError> for NoteFault {
    ghost from_gives = { λ _ e. e ≡ Memory };

    fn from(_error: AllocError) -> NoteFault {
        NoteFault::Memory
    }
}

impl<T: Drop> From<AllocFailed<T>> for NoteFault {
    ghost from_gives = { λ _ e. e ≡ Memory };

    fn from(_error: AllocFailed<T>) -> NoteFault {
        NoteFault::Memory
    }
}
