//! Edits of a performance: which are refused and why, the performance after the others, the cells that a change reaches, and
//! what becomes of an edit; and the laws of edits. There is no code here but the public functions whose contracts are the laws.
#![tactic(auto)]

mod laws;

pub use laws::{edits_keep_performances, reached_cells_are_one};
