ghost use Rattle.edit_session.specs.declared.ask_fault.AskFault.TheVariants.{Memory};
ghost use Rattle.std.specs.Prelude.{◌≡◌};

use std::alloc::AllocError;
use std::error::Error;
use std::fmt;

/// Why no alternatives of a bar are given.
#[derive(Clone, Copy, Debug, PartialEq, Eq)]
pub enum AskFault {
    /// The channel has no voice.
    NoVoice(u8),
    /// There is no such bar.
    NoBar(u32),
    /// There was not enough memory.
    Memory,
}

impl fmt::Display for AskFault {
    fn fmt<W: fmt::Write>(&self, f: &mut fmt::Formatter<W>) -> fmt::Result {
        match self {
            AskFault::NoVoice(channel) => write!(f, "channel {channel} has no voice"),
            AskFault::NoBar(bar) => write!(f, "there is no bar {bar}"),
            AskFault::Memory => write!(f, "not enough memory"),
        }
    }
}

impl Error for AskFault {}

impl From<AllocError> for AskFault {
    ghost from_gives = { λ _ e. e ≡ Memory };

    fn from(_error: AllocError) -> AskFault {
        AskFault::Memory
    }
}
