//! The words of texts of scores as they are read, whatever the form: lines, numbers, time signatures, values that can be written, and
//! the greatest common divisors in which lengths are counted.
#![tactic(auto)]

mod time_signature;

pub use time_signature::TimeSignature;
