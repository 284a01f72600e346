//! Runs a script over a desk, an editor or a studio: reads its lines, and writes the reply to each line before it answers the next one.
#![tactic(auto)]

mod desk;
mod hearing;
mod laws;
mod listener;
mod reply;
mod script;
mod script_stop;
mod shown;
mod studio;

pub use desk::Desk;
pub use laws::{desks_have_one_answer, lines_have_one_answer, scripts_have_one_output};
pub use script::{ONE_READ, run_script};
pub use script_stop::ScriptStop;
