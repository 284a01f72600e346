//! The law of LilyPond texts as they are written and read: the text of events is read as these events, and as no others.
#![tactic(auto)]

mod laws;

pub use laws::texts_are_read_as_their_events;
