ghost use Rattle.edit_session.specs.declared.open_fault.OpenFault.TheVariants.{Memory};
ghost use Rattle.std.specs.Prelude.{◌≡◌};

use bar_cut::CutFault;
use std::alloc::{AllocError, AllocFailed};
use std::error::Error;
use std::fmt;

/// Why no session is opened.
#[derive(Clone, Copy, Debug, PartialEq, Eq)]
pub enum OpenFault {
    /// There are more than 16,384 cells: bars times voices.
    Cells { count: u64 },
    /// The grammar has no root symbol for the signature of this bar, and has one for each bar before.
    NoStart { bar: u32, num: u8, den: u8 },
    /// No derivation fits this voice, the first such one; and its dead bar.
    NoDerivation { channel: u8, bar: u32 },
    /// There was not enough memory.
    Memory,
}

impl fmt::Display for OpenFault {
    fn fmt<W: fmt::Write>(&self, f: &mut fmt::Formatter<W>) -> fmt::Result {
        match self {
            OpenFault::Cells { count } => write!(f, "there are {count} cells, more than 16,384"),
            OpenFault::NoStart { bar, num, den } => write!(
                f,
                "the grammar has no start for the {num}/{den} of bar {bar}"
            ),
            OpenFault::NoDerivation { channel, bar } => write!(
                f,
                "no derivation fits the voice of channel {channel} up to bar {bar}"
            ),
            OpenFault::Memory => write!(f, "not enough memory"),
        }
    }
}

impl Error for OpenFault {}

impl From<AllocError> for OpenFault {
    ghost from_gives = { λ _ e. e ≡ Memory };

    fn from(_error: AllocError) -> OpenFault {
        OpenFault::Memory
    }
}

impl<T: Drop> From<AllocFailed<T>> for OpenFault {
    ghost from_gives = { λ _ e. e ≡ Memory };

    fn from(_error: AllocFailed<T>) -> OpenFault {
        OpenFault::Memory
    }
}

impl From<CutFault> for OpenFault {
    ghost use Rattle.edit_session.specs.Opening.{fault_of_cut};

    ghost from_gives = { λ cut fault. fault ≡ fault_of_cut cut };

    fn from(fault: CutFault) -> OpenFault {
        match fault {
            CutFault::NoStart { bar, num, den } => OpenFault::NoStart { bar, num, den },
            CutFault::Memory => OpenFault::Memory,
        }
    }
}
