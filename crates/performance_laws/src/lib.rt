//! The laws of performances, over definitions alone: what is loaded has one answer, the voices of a performance are voices that
//! the laws of trees are about, and their costs and the dead voice are one. There is no code here but the public functions whose
//! contracts are the laws.
#![tactic(auto)]

mod laws;

pub use laws::{answers_are_one, performances_are_voices, voices_have_one_answer};
