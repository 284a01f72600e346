ghost use Rattle.barline_fit.specs.declared.fit_fault.FitFault.TheVariants.{Memory};
ghost use Rattle.std.specs.Prelude.{◌≡◌};

use std::alloc::AllocError;
use std::error::Error;
use std::fmt;

/// Why no tick is fitted to a barline.
#[derive(Clone, Copy, Debug, PartialEq, Eq)]
pub enum FitFault {
    /// There is no such barline: it is the first one, or there are fewer bars.
    NoBar(u32),
    /// The edit that sets the barline is refused at every tick.
    NoCandidate,
    /// There was not enough memory.
    Memory,
}

impl fmt::Display for FitFault {
    fn fmt<W: fmt::Write>(&self, f: &mut fmt::Formatter<W>) -> fmt::Result {
        match self {
            FitFault::NoBar(bar) => write!(f, "there is no barline {bar} to be set"),
            FitFault::NoCandidate => write!(f, "the barline can be set to none of the ticks"),
            FitFault::Memory => write!(f, "not enough memory"),
        }
    }
}

impl Error for FitFault {}

impl From<AllocError> for FitFault {
    ghost from_gives = { λ _ e. e ≡ Memory };

    fn from(_error: AllocError) -> FitFault {
        FitFault::Memory
    }
}
