//! From a MIDI file to its performance, in two steps. The take is what was played: the notes of the file's events, its tempos,
//! keys and signatures. The performance of a take has the bars that hold the notes, and a voice for each channel that has one.
#![tactic(auto)]

mod channels;
mod laws;
mod load_fault;
mod loading;
mod played;
mod taking;

pub use channels::last_end;
pub use laws::{
    loaded_performances_are_well_formed, loadings_are_of_takes, loadings_are_one, takes_are_formed,
    takes_are_loaded_as_one, takes_are_one,
};
pub use load_fault::LoadFault;
pub use loading::{load, load_take};
pub use played::Take;
pub use taking::take;
