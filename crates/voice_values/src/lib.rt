//! The values of a voice, bar after bar: the notes and rests of written lengths that its sounds come to, of which each form of a score is
//! written. Which of them go on with the one before, and the sounds of a voice from a bar on.
#![tactic(auto)]

mod ahead;
mod laws;
mod voice_value;

pub use ahead::begins_with_tie;
pub use laws::{bar_values_are_one, bar_values_exist};
pub use voice_value::{VoiceValue, bar_values};
