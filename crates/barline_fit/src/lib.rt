//! A fitted barline: of several ticks for one barline the one of least total cost. The session on which the ticks are tried is afterwards
//! as it was.
#![tactic(auto)]

mod candidates;
mod fit;
mod fit_fault;
mod fitted;
mod laws;
mod trying;

pub use candidates::{Candidate, Candidates, MOST_CANDIDATES};
pub use fit::best_barline;
pub use fit_fault::FitFault;
pub use fitted::Fitted;
pub use laws::{
    a_fitted_barline_is_made, candidates_are_steps, fitted_ticks_are_one, reached_sums_are_one,
};
