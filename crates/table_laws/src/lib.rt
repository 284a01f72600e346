//! The answers that the theory of the least derivation asks for are there: each cell has a table, so that a voice has
//! a least derivation or none fits, and a performance has a cost or a dead voice. There is no code here but the public
//! functions whose contracts are the laws.
#![tactic(auto)]

mod laws;

pub use laws::{
    chords_exist, costs_are_one, dead_bars_exist, derivations_exist, tables_exist,
    voices_are_ready, voices_have_answers,
};
