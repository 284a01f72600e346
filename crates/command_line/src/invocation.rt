ghost use Rattle.command_line.specs.declared.invocation.WordsFault.TheVariants.{Memory};
ghost use Rattle.std.specs.Prelude.{◌≡◌};

use performance_prepare::Options;
use rhythm_base::{Words, Workers};
use std::alloc::{AllocError, AllocFailed};
use std::error::Error;
use std::fmt;

/// A command with its options.
#[derive(Drop)]
pub struct CommandLine {
    /// How many workers build cells.
    pub workers: Workers,
    /// What is told of a take.
    pub options: Options,
    /// The name of the script file, where one is given: no word, or one.
    pub script: Words,
    /// The name of the command and its arguments.
    pub words: Words,
}

/// What the words of a command line say.
#[derive(Drop)]
pub enum Invocation {
    /// They ask for help.
    Help,
    /// They ask for the version.
    Version,
    /// They are a command line, whatever its command is.
    Command(CommandLine),
}

/// Why words say nothing.
#[derive(Clone, Copy, Debug, PartialEq, Eq)]
pub enum WordsFault {
    /// The words are no command line, or the word of an option is out of range.
    Refused,
    /// Want of memory.
    Memory,
}

impl fmt::Display for WordsFault {
    fn fmt<W: fmt::Write>(&self, f: &mut fmt::Formatter<W>) -> fmt::Result {
        match self {
            WordsFault::Refused => write!(f, "the words are no command line"),
            WordsFault::Memory => write!(f, "not enough memory"),
        }
    }
}

impl Error for WordsFault {}

impl From<AllocError> for WordsFault {
    ghost from_gives = { λ _ e. e ≡ Memory };

    fn from(_error: AllocError) -> WordsFault {
        WordsFault::Memory
    }
}

impl<T: Drop> From<AllocFailed<T>> for WordsFault {
    ghost from_gives = { λ _ e. e ≡ Memory };

    fn from(_error: AllocFailed<T>) -> WordsFault {
        WordsFault::Memory
    }
}
