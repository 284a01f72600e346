//! Writes what an editing session starts from as text, a record a line: the bars, the tempos, the keys, the notes and the last
//! barline of a performance, by the numbers that the commands of an edit script take. Also the laws that a performance has one
//! such text, and what that tells of it.
#![tactic(auto)]

mod by_onset;
mod laws;
mod line;
mod notes_text;

pub use laws::{texts_are_one, texts_tell_performances};
pub use notes_text::write_notes;
