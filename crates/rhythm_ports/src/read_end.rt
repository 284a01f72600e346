ghost use Rattle.std.specs.Prelude.{◌+◌, ◌≤◌};

use std::alloc::AllocError;
use std::error::Error;
use std::fmt;

/// Why an input was not read whole.
#[derive(Clone, Copy, Debug, PartialEq, Eq)]
pub enum ReadEnd {
    /// A read failed.
    Fault,
    /// The input has more bytes than the limit. `read` of them were read, one more than the limit.
    TooLong { read: u64 },
    /// There was no memory for the bytes.
    Memory,
}

impl fmt::Display for ReadEnd {
    fn fmt<W: fmt::Write>(&self, f: &mut fmt::Formatter<W>) -> fmt::Result {
        match self {
            ReadEnd::Fault => write!(f, "a read failed"),
            ReadEnd::TooLong { read } => write!(f, "the input is too long: {read} bytes were read"),
            ReadEnd::Memory => write!(f, "not enough memory"),
        }
    }
}

impl Error for ReadEnd {}

impl From<AllocError> for ReadEnd {
    ghost use Rattle.std.specs.Prelude.{◌≡◌};
    ghost use Rattle.rhythm_ports.specs.declared.read_end.ReadEnd.TheVariants.{Memory};

    ghost from_gives = { λ _ e. e ≡ Memory };

    fn from(_error: AllocError) -> ReadEnd {
        ReadEnd::Memory
    }
}

/// The most bytes that one read of a whole input asks for.
pub(crate) const PIECE: usize = 4096;

/// How many bytes the next read asks for, after `held` were read: never more than one past the
/// limit.
pub(crate) fn room_for(held: usize, limit: u64) -> usize
    requires { held ≤ limit }
    ensures some { 1 ≤ result }
    ensures within { held + result ≤ limit + 1 }
    ensures piece { result ≤ PIECE }
{
    (limit - held as u64).min(PIECE as u64 - 1) as usize + 1
}
