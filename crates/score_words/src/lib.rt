//! The words of scores that several of their forms share: decimals, a byte so many times, separators, the keys of a chord by
//! rising key, the letters of keys and which of them are black, and what changes at a bar, also as LilyPond is told it.
#![tactic(auto)]

mod changes;
mod decimals;
mod letters;
mod lily_changes;
mod repeated;
mod rising_keys;

pub use changes::{
    has_flats, is_same_key, is_same_signature, is_same_tempo, key_before, quarters_of_minute,
};
pub use decimals::push_number;
pub use letters::{is_black, letter};
pub use lily_changes::write_lily_changes;
pub use repeated::{push_between, push_times};
pub use rising_keys::{RisingKeys, key_count};
