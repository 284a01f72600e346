ghost use Rattle.smf_writer.specs.declared.fault.RenderFault.TheVariants.{Memory};
ghost use Rattle.std.specs.Prelude.{◌≡◌};

use std::alloc::{AllocError, AllocFailed};
use std::error::Error;
use std::fmt;

/// Why a score is not written as a MIDI file.
#[derive(Clone, Copy, Debug, PartialEq, Eq)]
pub enum RenderFault {
    /// The last barline is too late for a MIDI file: its tick is above the greatest that can stand between two events.
    TooLong { tick: u64 },
    /// There was not enough memory.
    Memory,
}

impl fmt::Display for RenderFault {
    fn fmt<W: fmt::Write>(&self, f: &mut fmt::Formatter<W>) -> fmt::Result {
        match self {
            RenderFault::TooLong { tick } => {
                write!(
                    f,
                    "the score is too long for a MIDI file: it ends at tick {tick}"
                )
            }
            RenderFault::Memory => write!(f, "not enough memory"),
        }
    }
}

impl Error for RenderFault {}

impl From<AllocError> for RenderFault {
    ghost from_gives = { λ _ e. e ≡ Memory };

    fn from(_error: AllocError) -> RenderFault {
        RenderFault::Memory
    }
}

impl<T: Drop> From<AllocFailed<T>> for RenderFault {
    ghost from_gives = { λ _ e. e ≡ Memory };

    fn from(_error: AllocFailed<T>) -> RenderFault {
        RenderFault::Memory
    }
}
