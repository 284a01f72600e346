//! The notes of a performance, from the merged events of a file: a note begins at each note-on and ends at the next event of
//! its channel and key, or with the file. Of notes of one channel, key and onset the one with the greatest end is kept.
#![tactic(auto)]

mod ends;
mod fault;
mod kept;
mod laws;
mod onsets;
mod pairing;

pub use fault::NoteFault;
pub use laws::notes_are_one;
pub use pairing::pair;
