//! The performance after an edit, or why the edit is refused. All tests of an edit come first, in the order of their
//! refusals, and need no memory. Then the performance is made, and shares what stays.
#![tactic(auto)]

mod bars;
mod copies;
mod edits;
mod notes;
mod pins;
mod refusals;

pub use copies::copied;
pub use edits::edited;
