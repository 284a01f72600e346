ghost use Rattle.std.specs.Prelude.{◌≡◌};
ghost use Rattle.kern_writer.specs.declared.fault.ScoreFault.TheVariants.{Memory};

use std::alloc::{AllocError, AllocFailed};
use std::error::Error;
use std::fmt;

/// Why a score is not written.
#[derive(Clone, Copy, Debug, PartialEq, Eq)]
pub enum ScoreFault {
    /// The text would be longer than the longest score: `line` is the number, from 1, of the first record that ends past that.
    TooLong { line: u32 },
    /// There was not enough memory.
    Memory,
}

impl fmt::Display for ScoreFault {
    fn fmt<W: fmt::Write>(&self, f: &mut fmt::Formatter<W>) -> fmt::Result {
        match self {
            ScoreFault::TooLong { line } => {
                write!(
                    f,
                    "the score is too long: record {line} ends past its limit"
                )
            }
            ScoreFault::Memory => write!(f, "not enough memory"),
        }
    }
}

impl Error for ScoreFault {}

impl From<AllocError> for ScoreFault {
    ghost from_gives = { λ _ e. e ≡ Memory };

    fn from(_error: AllocError) -> ScoreFault {
        ScoreFault::Memory
    }
}

impl<T: Drop> From<AllocFailed<T>> for ScoreFault {
    ghost from_gives = { λ _ e. e ≡ Memory };

    fn from(_error: AllocFailed<T>) -> ScoreFault {
        ScoreFault::Memory
    }
}
