//! From the rule lists of a voice's trees to what sounds: one sound for each leaf, in order, and the spans over which chords
//! sound, across ties and barlines. The sounds of all voices over the bars of a performance are its score, from which every
//! format is written.
#![tactic(auto)]

mod ahead;
mod bars;
mod held;
mod held_sounds;
mod kind;
mod laws;
mod leaf;
mod lent;
mod parts;
mod reading;
mod score;
mod sounds;
mod spans;
mod voice_sounds;
mod walk;

pub use ahead::{SoundsAhead, own_count};
pub use laws::{
    chords_have_keys, derivations_are_well_sounded, pins_do_not_sound, scores_are_one,
    spans_are_one, spans_exist, well_sounded_fill_the_score,
};
pub use lent::LentSounds;
pub use score::{Score, ScoreBar};
pub use sounds::{derivation_sounds, sounds_of};
pub use spans::spans_of;
pub use voice_sounds::VoiceSounds;
