//! What can be said of the trees of a grammar before any bar is known, made once and read by the search of every bar: the
//! widths and symbols that can occur below a root, and the rules that cut each; the rule that ends a leaf, by what the leaf
//! asks; and the least trees over quiet intervals.
#![tactic(auto)]

mod cut;
mod draft;
mod frame;
mod grid;
mod leaf_rule;
mod leaf_rules;
mod pairs;
mod parts;
mod plan;
mod quiet_tree;
mod quiet_trees;
mod seat;
mod seat_table;
mod seats;
mod spans;
mod suiting;

pub use cut::Cut;
pub use leaf_rule::LeafRule;
pub use plan::Plan;
pub use quiet_tree::QuietTree;
pub use seat::Seat;
pub use spans::{Span, Spans};
pub use suiting::{sizes, suits};
