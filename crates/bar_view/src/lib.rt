//! What the leaves of one bar ask of its chords, as look-ups by the unit: which intervals are quiet, and for every other the
//! leaf over it: how many chords are attached to it and to the next, whether the latest one sounds in it, and what the
//! onsets in it cost. A view is set once for a bar, and its room is kept from bar to bar.
#![tactic(auto)]

mod displaced;
mod leaf;
mod point;
mod stretch;
mod units;
mod view;

pub use leaf::Leaf;
pub use stretch::Stretch;
pub use view::View;
