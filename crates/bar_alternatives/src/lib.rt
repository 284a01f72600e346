//! The best trees of one bar of one voice, its pin lifted, each with the least cost of a derivation of the voice that has it
//! there. The first so many trees of the bar for each number of chords carried in and out (best_trees) are put between the
//! least costs of what lies before the bar and after it (totals), and listed with their trees (listing).
#![tactic(auto)]

mod alternative;
mod laws;
mod listing;
mod totals;

pub use alternative::Alternative;
pub use laws::{best_trees_are_alternatives, best_trees_are_one, totals_are_least};
pub use listing::alternatives;
