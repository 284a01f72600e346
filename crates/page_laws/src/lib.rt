//! The law of pages as they are written and read: the page of a score is read as the spans of its voices, and each bar
//! is as long as its signature.
#![tactic(auto)]

mod laws;

pub use laws::{bars_are_full, pages_are_read_back, pages_say_the_events};
