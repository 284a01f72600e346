//! The law of the MIDI file of a score: it is read back without a fault, as the notes and the changes that it was written of.
//! There is no code here but the public function whose contract is the law.
#![tactic(auto)]

mod laws;

pub use laws::rendered_files_read_back;
