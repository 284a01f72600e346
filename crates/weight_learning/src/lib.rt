//! Weights that are learned: the weights of a grammar made anew of how often its rules are used.
#![tactic(auto)]

mod bit;
mod copies;
mod laws;
mod learning;
mod roots;
mod shares;
mod steps;
mod weights;

pub use bit::Bit;
pub use copies::copied;
pub use laws::{
    learned_weights_are_few, lone_rules_weigh_nothing, more_used_is_no_heavier,
    only_weights_are_learned, steps_are_greatest, thresholds_are_least,
    unused_symbols_keep_their_weights, weights_decide_no_derivation,
};
pub use learning::learned;
pub use weights::{HEAVIEST_BIT, HEAVIEST_LEARNED};
