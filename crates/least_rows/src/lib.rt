//! The search for the least trees of one bar of one voice that has no pin. A row, the least trees of a seat from a unit on for
//! one number of chords carried in, is found when it is asked for, and once. It holds only the entries that are there, in the
//! order of their rule lists, so that the place of an entry is its rank. Trees side by side are followed from left to right,
//! over the counts of chords between them, and no rule list is made before the end.
#![tactic(auto)]

mod choice;
mod entry;
mod fork;
mod lead;
mod leaf_choices;
mod parts;
mod quiet_bar;
mod quiet_lists;
mod quiet_tree;
mod quiet_trees;
mod quiet_ways;
mod room;
mod roots;
mod rows;
mod search;
mod settled;
mod state;
mod texts;
mod top;
mod tree_at;
mod way;
mod ways;
mod write;

pub use quiet_bar::quiet_of;
pub use quiet_trees::QuietTrees;
pub use room::Room;
