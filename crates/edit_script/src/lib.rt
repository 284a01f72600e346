//! The lines of an edit script and the replies to them: what a line says, and the text that a reply is written with.
#![tactic(auto)]

mod command;
mod command_words;
mod gathered;
mod keyword;
mod line_fault;
mod line_words;
mod number;
mod read;
mod refusal_words;
mod reply;
mod reply_lines;
mod word;

pub use command::Command;
pub use line_fault::LineFault;
pub use read::read_line;
pub use reply::{Alt, Refusal, Reply};
pub use reply_lines::write_reply;
