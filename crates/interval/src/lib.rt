//! The tests on one leaf of a bar: where an onset goes, whether a chord's end sounds in the leaf, how far an onset is
//! displaced, and on which side. Ticks count from the bar's start, units are parts of the bar. No call takes memory.
#![tactic(auto)]

mod attachment;
mod displaced;

pub use attachment::{Attached, side, sounds};
pub use displaced::{displacement, late};
