ghost use Rattle.std.specs.Prelude.{◌≡◌};
ghost use Rattle.rhythm_base.specs.declared.bar_fault.BarFault.TheVariants.{Memory};

use std::alloc::{AllocError, AllocFailed};
use std::error::Error;
use std::fmt;

/// Why the bars of a file cannot be laid. Bars are numbered from 0.
#[derive(Clone, Copy, Debug, PartialEq, Eq)]
pub enum BarFault {
    /// There would be more than 4,096 bars. `start` is the tick at which the next one would begin.
    TooManyBars { start: u64 },
    /// A bar takes a signature of no beats or more than 64, or of beats shorter than a 64th.
    BadSignature { num: u8, dd: u8 },
    /// A bar has no whole number of ticks.
    UnevenBar { bar: u32, num: u8, den: u8 },
    /// There was not enough memory.
    Memory,
}

impl fmt::Display for BarFault {
    fn fmt<W: fmt::Write>(&self, f: &mut fmt::Formatter<W>) -> fmt::Result {
        match self {
            BarFault::TooManyBars { start } => write!(
                f,
                "there are too many bars: one more would begin at tick {start}"
            ),
            BarFault::BadSignature { num, dd } => write!(
                f,
                "a time signature is out of range: {num} beats of 1/2^{dd}"
            ),
            BarFault::UnevenBar { bar, num, den } => write!(
                f,
                "bar {bar} of {num}/{den} has no whole number of ticks"
            ),
            BarFault::Memory => write!(f, "not enough memory"),
        }
    }
}

impl Error for BarFault {}

impl From<AllocError> for BarFault {
    ghost from_gives = { λ _ e. e ≡ Memory };

    fn from(_error: AllocError) -> BarFault {
        BarFault::Memory
    }
}

impl<T: Drop> From<AllocFailed<T>> for BarFault {
    ghost from_gives = { λ _ e. e ≡ Memory };

    fn from(_error: AllocFailed<T>) -> BarFault {
        BarFault::Memory
    }
}
