ghost use Rattle.std.specs.Prelude.{◌≡◌, Some};
ghost use Rattle.performance_prepare.specs.FaultText.{fault_text};
ghost use Rattle.performance_prepare.specs.declared.prepare_fault.PrepareFault.TheVariants.{Memory};

use std::alloc::{AllocError, AllocFailed};
use std::error::Error;
use std::fmt;

/// Why a take cannot be prepared by the options.
#[derive(Clone, Copy, Debug, PartialEq, Eq)]
pub enum PrepareFault {
    /// Without drums no note is left.
    NoNotes,
    /// The split or the hands have no channel left for each voice: there would be this many, more than 16.
    TooManyVoices { count: u64 },
    /// A quarter note of the tempo would have this many ticks, none or more than 32,767.
    WrongDivision { division: u64 },
    /// The last note would end at this tick, later than 1,000,000,000.
    TooLate { tick: u64 },
    /// The upbeat is longer than the bar in force at tick 0, or has no whole number of ticks.
    BadUpbeat { num: u8, den: u8 },
    /// There was not enough memory.
    Memory,
}

impl fmt::Display for PrepareFault {
    ghost output = { λ fault. Some (fault_text fault) };

    fn fmt<W: fmt::Write>(&self, f: &mut fmt::Formatter<W>) -> fmt::Result {
        match self {
            PrepareFault::NoNotes => write!(f, "without drums there are no notes"),
            PrepareFault::TooManyVoices { count } => write!(f, "there would be {count} voices"),
            PrepareFault::WrongDivision { division } => {
                write!(f, "a quarter note would have {division} ticks")
            }
            PrepareFault::TooLate { tick } => {
                write!(f, "the last note would end at tick {tick}")
            }
            PrepareFault::BadUpbeat { num, den } => {
                write!(f, "{num}/{den} is no upbeat of the first bar")
            }
            PrepareFault::Memory => write!(f, "not enough memory"),
        }
    }
}

impl Error for PrepareFault {}

impl From<AllocError> for PrepareFault {
    ghost from_gives = { λ _ e. e ≡ Memory };

    fn from(_error: AllocError) -> PrepareFault {
        PrepareFault::Memory
    }
}

impl<T: Drop> From<AllocFailed<T>> for PrepareFault {
    ghost from_gives = { λ _ e. e ≡ Memory };

    fn from(_error: AllocFailed<T>) -> PrepareFault {
        PrepareFault::Memory
    }
}
