//! Reads a **kern text of the profile that the writer of this repository writes, and a little more: its first line with a
//! fault, or its sounding spans.
#![tactic(auto)]

mod checks;
mod chord;
mod event_text;
mod events;
mod fault;
mod faults;
mod grid;
mod line;
mod line_reading;
mod line_words;
mod listing;
mod note;
mod number;
mod piece;
mod pitch;
mod place;
mod read;
mod reading;
mod score;
mod signature;
mod spine;
mod token;
mod tokens;
mod value;

pub use fault::{KernFault, KernWhat};
pub use read::read_kern;
pub use score::KernScore;
pub use voice_events::KernEvent;
