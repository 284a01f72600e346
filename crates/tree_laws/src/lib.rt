//! The theory of the least derivation, over trees and their leaves: a line of leaves read as a run that hands on a count, so that
//! bars are local; rule lists that parse in one way; least trees made of the least; and the alternatives of a bar. There is no
//! code here but the public functions whose contracts are the laws.
#![tactic(auto)]

mod laws;

pub use laws::{
    bars_are_local, counts_are_one, dead_bars_are_by_counts, equal_cuts_are_as_before,
    least_forests_are_of_the_least, lists_are_no_prefixes, one_bar_is_a_voice,
    one_weight_is_as_before, onsets_are_attached, quiet_intervals_are_alike, shapes_are_one,
    tables_are_cheap, trees_have_one_answer, trees_have_shapes,
};
