//! How often each rule of a grammar stands in rule lists. The lists are counted one after another; their order does not matter.
#![tactic(auto)]

mod laws;
mod rule_counts;

pub use laws::{
    counts_add_up, counts_are_of_any_order, rule_counts_are_one,
    rule_lists_have_rules_of_the_grammar,
};
pub use rule_counts::{MOST_USES, RuleCounts};
