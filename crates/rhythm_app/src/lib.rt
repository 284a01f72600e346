//! The top call: what the words of a command line ask for, from the bytes of the files that they name to the bytes that
//! are written. `run` carries the promise of the whole program as its contract. Each stage (words, files, performance, score)
//! is a function whose contract says what its tests come to, and `run` puts them together.
#![tactic(auto)]

mod answering;
mod drill;
mod events;
mod faults;
mod files;
mod fit;
mod fit_score;
mod follow;
mod generate;
mod help;
mod inputs;
mod laws;
mod learn;
mod lent;
mod line;
mod names;
mod notes;
mod performance;
mod request;
mod script_file;
mod session;
mod stop;
mod top;
mod usage;
mod writing;

pub use laws::{fitted_scores_are_one, outcomes_are_one};
pub use lent::{Lent, World};
pub use line::write_line;
pub use performance_load::{LoadFault, load};
pub use stop::{Kind, MidiStop, Stop};
pub use top::run;
