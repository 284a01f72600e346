//! The page of a score, as a LilyPond text that is engraved without settings: a staff for each voice with its clef, the key, the signature
//! and the tempo where they change, and in each bar the notes of the voice's notation under their brackets, with ties, grace notes and
//! short marks. Pitches stand in absolute octaves, by their Dutch names.
#![tactic(auto)]

mod bar;
mod chord;
mod graces;
mod group;
mod laws;
mod note;
mod page;
mod pitch;
mod staff;
mod value_text;

pub use laws::{pages_are_one, pages_exist};
pub use page::write_page;
