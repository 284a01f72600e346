ghost use Rattle.grammar_file.specs.Outcome.{on_line};
ghost use Rattle.std.specs.Prelude.{◌≡◌};
ghost use Rattle.grammar_file.specs.declared.fault.GrammarWhat.TheVariants.{Memory};

use std::alloc::{AllocError, AllocFailed};

/// What is wrong with a line of a grammar file.
#[derive(Clone, Copy, Debug, PartialEq, Eq)]
pub enum GrammarWhat {
    /// One of the first four lines is not the header's line of its place, or is not there.
    Header,
    /// The line has none of the forms of the file's version, or a word that is no number stands in a number's place.
    Line,
    /// A number is out of its range, the first such of the line; `limit` is the greatest number that is allowed there.
    Number { limit: u32 },
    /// A second start of a signature.
    DoubleStart,
    /// The rule after 512 others.
    TooManyRules,
    /// A left side with another name than 64 before it.
    TooManyNames,
    /// A name that is no rule's left side.
    UnknownName,
    /// There was not enough memory.
    Memory,
}

/// Why a text could not be read as a grammar file: the first line with a fault, but lines with unknown names come after
/// all others.
#[derive(Clone, Copy, Debug, PartialEq, Eq)]
pub struct GrammarFault {
    /// The line, from 1, with comments and empty lines counted. For want of memory it is the line that was being read.
    pub line: u32,
    /// What is wrong with it.
    pub what: GrammarWhat,
}

impl From<AllocError> for GrammarWhat {
    ghost from_gives = { λ _ e. e ≡ Memory };

    fn from(_error: AllocError) -> GrammarWhat {
        GrammarWhat::Memory
    }
}

impl<T: Drop> From<AllocFailed<T>> for GrammarWhat {
    ghost from_gives = { λ _ e. e ≡ Memory };

    fn from(_error: AllocFailed<T>) -> GrammarWhat {
        GrammarWhat::Memory
    }
}

/// What a line came to, with the line's number at its fault.
pub(crate) fn on_line<T: Drop>(
    number: u32,
    outcome: Result<T, GrammarWhat>,
) -> Result<T, GrammarFault>
    ensures { result ≡ on_line number outcome }
{
    match outcome {
        Ok(value) => Ok(value),
        Err(what) => Err(GrammarFault { line: number, what }),
    }
}
