use std::error::Error;
use std::fmt;

/// Why a line could not be read as a command.
#[derive(Clone, Copy, Debug, PartialEq, Eq)]
pub enum LineFault {
    /// The line says no command.
    BadLine,
    /// There was not enough memory for the shape of a pin.
    Memory,
}

impl fmt::Display for LineFault {
    fn fmt<W: fmt::Write>(&self, f: &mut fmt::Formatter<W>) -> fmt::Result {
        match self {
            LineFault::BadLine => write!(f, "the line says no command"),
            LineFault::Memory => write!(f, "not enough memory"),
        }
    }
}

impl Error for LineFault {}
