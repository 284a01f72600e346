//! What a search for the least trees of a bar gives: for each number of chords carried in and out the cost of the least tree, its place
//! among those of its row, and its rule list.
#![tactic(auto)]

mod trees;
mod written_lists;

pub use trees::{BarBests, BarTrees};
pub use written_lists::WrittenLists;
