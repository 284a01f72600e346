//! Laws of the events of a score: what is read back of its text are the events of the score itself, so a writer that takes
//! these needs no text, and whatever is read back can be handed to a writer.
#![tactic(auto)]

mod laws;

pub use laws::{score_texts_have_their_events, texts_have_their_events, texts_have_voice_events};
