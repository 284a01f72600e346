//! The MusicXML text of a score, for score editors: a part for each voice, bar after bar, with its clef, with keys, signatures and
//! tempos where they change, and with its notes, chords and rests under the brackets of tuplets. Each note is a line, and so is what
//! is said before a bar.
#![tactic(auto)]

mod attributes;
mod bar;
mod elements;
mod laws;
mod list;
mod marks;
mod note;
mod part;
mod pitch;
mod tempo;
mod text;
mod value;

pub use laws::{texts_are_one, texts_exist};
pub use text::write_musicxml;
