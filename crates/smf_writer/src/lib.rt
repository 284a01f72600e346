//! The notated rhythm of a score as a Standard MIDI File of format 1: its events are played as notes, and the notes of each
//! voice are a track of their own. Tempo, signature and key stand in the first track.
#![tactic(auto)]

mod changes;
mod event_strokes;
mod fault;
mod laws;
mod messages;
mod rendered_file;
mod stroke;
mod voice;

pub use fault::RenderFault;
pub use laws::rendered_files_are_one;
pub use rendered_file::render;
