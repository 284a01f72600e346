//! The machine of an edit script: which reply each line may have, and the performance after it; and its laws. There is no code
//! here but the public functions whose contracts are laws. That a line has one answer and a script one run, where a performance
//! has one score at most, stands in proofs/OneRuns for a crate that knows what a score is.
#![tactic(auto)]

mod laws;

pub use laws::{answers_of_edits_are_one, lines_say_one_command};
