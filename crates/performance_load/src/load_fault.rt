ghost use Rattle.performance_load.specs.Loading.{note_fault_gives, bar_fault_gives};
ghost use Rattle.performance_load.specs.declared.load_fault.LoadFault.TheVariants.{Memory};
ghost use Rattle.std.specs.Prelude.{◌≡◌};

use note_list::NoteFault;
use rhythm_base::BarFault;
use std::alloc::{AllocError, AllocFailed};
use thiserror::Error;

/// Why a file says no performance.
#[derive(Debug, Drop, Error)]
pub enum LoadFault {
    /// There are no notes, or too many.
    #[error("the notes of the file make no performance")]
    Notes(NoteFault),
    /// The first bar that cannot be laid.
    #[error("the bars of the file cannot be laid")]
    Bars(BarFault),
    /// There was not enough memory.
    #[error("want of memory")]
    Memory,
}

impl From<NoteFault> for LoadFault {
    ghost from_gives = { λ x e. e ≡ note_fault_gives x };

    fn from(fault: NoteFault) -> LoadFault {
        match fault {
            NoteFault::Memory => LoadFault::Memory,
            other => LoadFault::Notes(other),
        }
    }
}

impl From<BarFault> for LoadFault {
    ghost from_gives = { λ x e. e ≡ bar_fault_gives x };

    fn from(fault: BarFault) -> LoadFault {
        match fault {
            BarFault::Memory => LoadFault::Memory,
            other => LoadFault::Bars(other),
        }
    }
}

impl From<AllocError> for LoadFault {
    ghost from_gives = { λ _ e. e ≡ Memory };

    fn from(_error: AllocError) -> LoadFault {
        LoadFault::Memory
    }
}

impl<T: Drop> From<AllocFailed<T>> for LoadFault {
    ghost from_gives = { λ _ e. e ≡ Memory };

    fn from(_error: AllocFailed<T>) -> LoadFault {
        LoadFault::Memory
    }
}
