//! The law of MusicXML texts as they are written and read: the text of a score is read as the spans of its voices, and
//! each measure is as long as its bar, and each note as its value says.
#![tactic(auto)]

mod laws;

pub use laws::{
    bars_are_full, measures_are_full, texts_are_read_back, texts_say_the_events,
    values_say_their_durations,
};
