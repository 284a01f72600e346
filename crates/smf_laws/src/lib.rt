//! The laws of MIDI files that are written and read: what is written of a quantity, of a track and of a file is read back as
//! the same. There is no code here but the public functions whose contracts are the laws.
#![tactic(auto)]

mod laws;

pub use laws::{files_read_back, quantities_read_back, tracks_read_back};
