//! The search for the best trees of one bar, of the shape of a pin or of any: for each number of chords carried in over its
//! barline and each carried out, the first so many by cost and then by rule list (bar). Trees of a symbol over an interval, of
//! a part of the pin (pins), are found once (memo), for all intervals that are quiet alike, from the rules that suit (suited)
//! and end or cut it (search). What is asked for is asked by width (agenda), so that no search goes deep. With one tree each
//! they are the least trees of a bar (least).
#![tactic(auto)]

mod agenda;
mod bar;
mod cut;
mod grid;
mod leaf_offer;
mod least;
mod memo;
mod pins;
mod ranking;
mod search;
mod suited;

pub use bar::best_trees;
pub use grid::Grid;
pub use least::least_trees;
pub use ranking::{Entry, Ranking};
