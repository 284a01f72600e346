//! Standard MIDI Files of format 0 and 1 with metrical time: each one is read, and of all other bytes the first fault is
//! named, with its place. What a file says stands in specs/, from bytes and quantities over messages, events and tracks to
//! chunks and the file: for each part a function from the bytes and a place in them to what is read there and the place
//! after it, or to the fault that stands there. The reader is proved to be that function, unless memory runs out. The
//! events of the tracks of a file can be merged into one list.
#![tactic(auto)]

mod bytes;
mod chunk;
mod event;
mod fault;
mod header;
mod laws;
mod meaning;
mod message;
mod meta;
mod quantity;
mod read;
mod smf;
mod track;

pub use fault::SmfFault;
pub use laws::{
    files_are_read_to_their_last_tracks, files_have_one_outcome, readings_are_in_range,
    tracks_are_read_to_their_ends,
};
pub use read::read_smf;
pub use smf::{Smf, Track};
