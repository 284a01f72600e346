//! A border between two hands that moves from group to group of notes: of all lists of borders, one for each group, the one
//! that costs least, where each group costs something at each border and each move costs by its width.
#![tactic(auto)]

mod borders;
mod laws;

pub use borders::{BORDERS, least_borders};
pub use laws::{least_borders_are_least, least_borders_are_one};
