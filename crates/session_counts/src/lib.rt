//! How often the rules of its grammar stand in the least derivations of a session.
#![tactic(auto)]

mod counting;
mod laws;

pub use counting::count_rules;
pub use laws::rule_lists_are_one;
