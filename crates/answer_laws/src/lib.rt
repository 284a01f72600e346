//! That what is asked of a performance has an answer: the cells that a change reaches, the score and its text, the best trees
//! of a bar, an opening, the outcome of an edit, the answer to a line and the end of a script; and that the script that follows the
//! player is accepted line by line. There is no code here but the public functions whose contracts are the laws.
#![tactic(auto)]

mod laws;

pub use laws::{
    alternatives_exist, desks_begin_open, desks_have_answers, followings_are_done,
    lines_have_answers, openings_exist, outcomes_exist, outputs_exist, reached_cells_exist,
    scores_exist, scripts_have_ends,
};
