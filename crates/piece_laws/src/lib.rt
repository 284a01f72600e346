//! The laws of the pieces that are made from a number: what the reader of MIDI files reads of them, and what loading makes of
//! that. There is no code here but the public functions whose contracts are the laws.
#![tactic(auto)]

mod laws;

pub use laws::{
    pieces_are_loaded, pieces_are_read, pieces_are_well_formed, pieces_have_their_bars,
    pieces_keep_their_notes,
};
