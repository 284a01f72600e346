//! The words of a command line: what they say, by one flat command of `clap` with the number of workers and what is told of a
//! take as options. Words that are plain say the same without `clap`, which is a law. Help and the version are asked for by words
//! of their own.
#![tactic(auto)]

mod flat_command;
mod invocation;
mod laws;
mod number;
mod option_table;
mod preparing;
mod read;
mod requests;
mod texts;

pub use invocation::{CommandLine, Invocation, WordsFault};
pub use laws::{numbers_are_as_in_scripts, options_are_in_range, plain_words_are_taken};
pub use number::number_in;
pub use read::{read_words, words_refusal};
pub use texts::{help_text, version_text};
