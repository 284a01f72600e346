//! The theory of a row: the least trees over an interval for one number of chords carried in, by the number carried out. A
//! row of trees side by side is made from left to right, a row of one symbol by its rules; no two rule lists are compared,
//! since numbers stand for them that order as they do. Over a quiet interval, in which no chord begins, the trees are known
//! without the bar. There is no code here but the type that says how a quiet interval sounds.
#![tactic(auto)]

mod quiet;

pub use quiet::Quiet;
