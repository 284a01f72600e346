//! Grammars that the crates of tests and benchmarks share, as texts.
#![tactic(auto)]

mod texts;

pub use texts::{HALVES, USUAL, WHOLE};
