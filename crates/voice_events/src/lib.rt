//! The events of a score, as a writer takes them: in each voice spans that follow one another, in whole parts of a whole note,
//! up to the last barline. They come of the score itself, and what reads or writes a form of scores stands above.
#![tactic(auto)]

mod event;
mod events;
mod laws;
mod parts;

pub use event::KernEvent;
pub use events::events_of;
pub use laws::{
    parts_are_counted, score_events_are_one, score_events_are_voice_events, score_events_exist,
    signatures_decide_events,
};
pub use parts::{frac_parts, score_bar_parts, score_parts};
