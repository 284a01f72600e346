//! The chain over the bars of a voice: the table of each bar, and the products of neighbours level by level up to one. A bar
//! that changes renews only the products above it. The chain tells the least cost of the whole, the counts of chords carried
//! over the barlines on the least path, the first bar over which no path leads, and the least costs before and after a bar.
#![tactic(auto)]

mod around;
mod carries;
mod chain;
mod dead;
mod laws;
mod levels;

pub use around::Around;
pub use chain::Chain;
pub use laws::{
    dead_cells_are_dead_bars, keys_are_least, no_path_is_no_derivation, paths_are_derivations,
    paths_give_derivations,
};
