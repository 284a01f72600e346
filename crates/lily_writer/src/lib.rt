//! The LilyPond text of a score: a staff for each voice, with the key, the signature and the tempo where they change, and in
//! each bar the pieces of spans and gaps as values, with ties over barlines. Pitches stand in absolute octaves, by their Dutch
//! names. It is written from the events of a score, and its definition comes with a reader's: the events that a
//! text says.
#![tactic(auto)]

mod ahead;
mod chord;
mod elements;
mod extent;
mod laws;
mod page;
mod piece;
mod pitch;
mod place;
mod staff;
mod value_text;

pub use laws::pages_are_one;
pub use page::write_lily;
