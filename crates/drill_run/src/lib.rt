//! The drill of a number: a piece that is made from the number, and forty edits of a session, made or passed over one after
//! another. What they came to is said in a summary of six lines, which the number and the grammar alone decide.
#![tactic(auto)]

mod drill;
mod drill_stop;
mod figures;
mod laws;
mod piece;
mod summary;

pub use drill::{DRILL_EDITS, run_drill};
pub use drill_stop::DrillStop;
pub use figures::Figures;
pub use laws::{drills_are_one, drills_keep_bars};
pub use piece::{DRILL_BARS, made_performance};
