ghost use Rattle.std.specs.Prelude.{◌≡◌};
ghost use Rattle.kern_reader.specs.declared.fault.KernWhat.TheVariants.{Memory};

use std::alloc::{AllocError, AllocFailed};
use std::error::Error;
use std::fmt;

/// What is wrong with a line of a **kern text. Of several on one line the first of this order counts; `End` stands right
/// after `Head`.
#[derive(Clone, Copy, Debug, PartialEq, Eq)]
pub enum KernWhat {
    /// The first line is not `**kern` in 1 to 16 columns.
    Head,
    /// A line after the end, or the end where no last barline is before it, or none.
    End,
    /// The line has another number of columns than the first.
    Width,
    /// A column is none of the tokens that are read there.
    Token,
    /// The values so far have no common grid of at most 61,440 parts of a whole note.
    Grid,
    /// A token where its spine has none, or none where it has one.
    Place,
    /// Grace notes that no main note follows, or too many of them.
    Grace,
    /// A bar that its values do not fill, or one without a signature.
    Bar,
    /// A tie that is not closed, or closed where none is open.
    Tie,
    /// There was not enough memory.
    Memory,
}

/// Why a text could not be read: its first line with a fault.
#[derive(Clone, Copy, Debug, PartialEq, Eq)]
pub struct KernFault {
    /// The line, from 1, with comments counted. For want of memory it is the line that was being read.
    pub line: u32,
    /// What is wrong with it.
    pub what: KernWhat,
}

impl KernWhat {
    ghost use Rattle.kern_reader.specs.FaultName.{fault_name};

    /// The name of the fault, as it is reported.
    pub fn name(self) -> &'static str
        ensures { result.now ≡ fault_name self }
    {
        match self {
            KernWhat::Head => "Head",
            KernWhat::End => "End",
            KernWhat::Width => "Width",
            KernWhat::Token => "Token",
            KernWhat::Grid => "Grid",
            KernWhat::Place => "Place",
            KernWhat::Grace => "Grace",
            KernWhat::Bar => "Bar",
            KernWhat::Tie => "Tie",
            KernWhat::Memory => "Memory",
        }
    }
}

impl fmt::Display for KernFault {
    fn fmt<W: fmt::Write>(&self, f: &mut fmt::Formatter<W>) -> fmt::Result {
        let line = self.line;
        let name = self.what.name();
        write!(f, "line {line}: {name}")
    }
}

impl Error for KernFault {}

impl From<AllocError> for KernWhat {
    ghost from_gives = { λ _ e. e ≡ Memory };

    fn from(_error: AllocError) -> KernWhat {
        KernWhat::Memory
    }
}

impl<T: Drop> From<AllocFailed<T>> for KernWhat {
    ghost from_gives = { λ _ e. e ≡ Memory };

    fn from(_error: AllocFailed<T>) -> KernWhat {
        KernWhat::Memory
    }
}
