//! Laws of **kern texts as they are written and read: the events of a score are one list, its grid is a least common multiple, a
//! pitch or a value is read of nothing but its own texts, and a score that is written reads back to the spans of its sounds.
#![tactic(auto)]

mod laws;

pub use laws::{
    events_are_one, events_exist, grids_are_least, only_pitches_are_read,
    only_value_texts_are_read, pitches_read_back, scores_are_in_range, scores_read_back,
    texts_read_back, values_read_back,
};
