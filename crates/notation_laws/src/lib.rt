//! The laws of notation, said without a text: what is heard of the notes of a voice are the spans of its sounds, its
//! bars are heard in full, and its notes are those of its **kern column.
#![tactic(auto)]

mod laws;

pub use laws::{
    bars_are_heard_in_full, groups_are_of_the_column, notes_can_be_written, spans_are_the_events,
    voices_are_heard,
};
