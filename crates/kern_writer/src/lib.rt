//! The **kern text of a score: whole records, of the head, of each bar's changes, barline and data, and of the tail. A value
//! is written at the place at which it begins, with tie marks over leaves and barlines, and grace notes before it.
#![tactic(auto)]

mod ahead;
mod bar;
mod changes;
mod chord;
mod column;
mod data;
mod fault;
mod kern;
mod kern_text;
mod laws;
mod pitch;
mod shared;
mod token;
mod value_text;

pub use fault::ScoreFault;
pub use kern::write_kern;
pub use laws::{performance_texts_are_one, texts_are_one, texts_exist};
