//! The text of an edit script: edits as the lines that say them.
#![tactic(auto)]

mod edit_text;
mod laws;

pub use edit_text::write_edits;
pub use laws::{edits_are_read_back, texts_are_of_one_list};
