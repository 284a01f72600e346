//! The least trees of one bar of one voice: for each number of chords carried in over its barline and each carried out, what
//! the least tree costs, the place of its rule list among those of its row, and the list. A bar without a pin is searched by
//! rows, by a plan of its grammar (least_rows), and one with a pin from the root down (best_trees). What was found is kept
//! as a table (table), with the bar that it was found for. Each build is one step of a counter that only this crate raises
//! (steps). A bar that is equal to one with a table may have an equal table without a search; it counts as a build too. Who
//! needs costs alone, and for some numbers carried in, asks for no more (asked).
#![tactic(auto)]

mod asked;
mod build;
mod costs;
mod kept_rules;
mod steps;
mod table;

pub use asked::build_costs;
pub use build::{build_cell, build_planned, build_table};
pub use costs::BarCosts;
pub use steps::{Leave, Steps};
pub use table::BarTable;
