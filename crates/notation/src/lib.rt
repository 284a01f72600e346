//! The notation of a voice, of which pages and scores for editors are written: the tokens of its **kern column, bar by bar, as notes,
//! chords and rests under the brackets of tuplets, with ties, grace chords and short marks; the names of its pitches, and its clef.
#![tactic(auto)]

mod bar;
mod clef;
mod cut;
mod grid;
mod groups;
mod laws;
mod names;
mod note;
mod notes;
mod odd;
mod place;
mod rests;
mod spelling;
mod ties;
mod token;
mod voice;
mod width;

pub use clef::{Clef, clef_of};
pub use laws::{
    groups_are_plain, groups_fill_the_bar, notes_fill_their_group, notes_have_their_ratio,
    voice_groups_are_one, voice_groups_exist,
};
pub use names::{Alteration, Letter, PitchName, names_are_one, pitch_name};
pub use note::{BarGroups, Group, Note, Ratio};
pub use voice::voice_groups;
