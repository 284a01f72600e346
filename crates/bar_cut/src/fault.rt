ghost use Rattle.bar_cut.specs.declared.fault.CutFault.TheVariants.{Memory};
ghost use Rattle.std.specs.Prelude.{◌≡◌};

use std::alloc::{AllocError, AllocFailed};
use std::error::Error;
use std::fmt;

/// Why a voice is not cut.
#[derive(Clone, Copy, Debug, PartialEq, Eq)]
pub enum CutFault {
    /// The grammar has no root symbol for the signature of this bar, and has one for each bar before.
    NoStart { bar: u32, num: u8, den: u8 },
    /// Want of memory, where each bar has a root symbol.
    Memory,
}

impl fmt::Display for CutFault {
    fn fmt<W: fmt::Write>(&self, f: &mut fmt::Formatter<W>) -> fmt::Result {
        match self {
            CutFault::NoStart { bar, num, den } => write!(
                f,
                "the grammar has no start for the {num}/{den} of bar {bar}"
            ),
            CutFault::Memory => write!(f, "not enough memory"),
        }
    }
}

impl Error for CutFault {}

impl From<AllocError> for CutFault {
    ghost from_gives = { λ _ e. e ≡ Memory };

    fn from(_error: AllocError) -> CutFault {
        CutFault::Memory
    }
}

impl<T: Drop> From<AllocFailed<T>> for CutFault {
    ghost from_gives = { λ _ e. e ≡ Memory };

    fn from(_error: AllocFailed<T>) -> CutFault {
        CutFault::Memory
    }
}
