//! The editing session: a performance and a grammar with the table of each cell and the chain of each voice, kept so that a
//! score is at hand after each edit. All that a session answers is decided by its grammar and its performance.
#![tactic(auto)]

mod ask_fault;
mod asking;
mod changed_voice;
mod committed;
mod exchange;
mod inputs;
mod kept_voices;
mod known;
mod laws;
mod least_trees;
mod open_fault;
mod opening;
mod prepared;
mod preparing;
mod reached;
mod score;
mod session;
mod span;
mod standing;
mod voice_tables;

pub use ask_fault::AskFault;
pub use bar_alternatives::Alternative;
pub use committed::{Applied, Committed, Dead};
pub use laws::openings_are_one;
pub use open_fault::OpenFault;
pub use prepared::{CellTable, Prepared};
pub use session::Session;
