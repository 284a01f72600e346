//! The values in which lengths are written: 5/4 of a whole note is a whole note and a quarter. Within a bar a leaf and the
//! ties after it may be one value with dots. The values of a length sum to it, those of a bar fill it, and each counts in 64
//! parts of a whole note for each unit of the resolution. No value joins leaves of two bars. The spans of a voice and the names of
//! pitches are defined here besides, for all crates of notation.
#![tactic(auto)]

mod grid;
mod joined;
mod laws;
mod length;
mod notation;
mod value;

pub use grid::{Grid, MOST_GRID};
pub use joined::{Timed, Written, values_of};
pub use laws::{
    bars_count_in_the_grid, dots_sum_to_the_leaves, values_are_one, values_count_in_the_grid,
    values_exist, values_sum_to_the_length, written_are_one, written_count_in_the_grid,
    written_exist, written_fill_the_bar,
};
pub use length::{Length, lowest};
pub use notation::notate;
pub use value::{Recip, Value};
