//! The chords of a voice: notes that begin within a window of time after the first of them are one chord. The window is in
//! microseconds, and the elapsed time is that of the tempo map. At a break, where no chord goes on, the notes can be cut.
#![tactic(auto)]

mod breaks;
mod chords;
mod laws;
mod voice_notes;

pub use breaks::{break_from, break_up_to};
pub use chords::chords_of;
pub use laws::{breaks_are_one, chords_rise, no_chord_ends_before_it_begins};
pub use voice_notes::{VoiceNotes, notes_of_voice};
