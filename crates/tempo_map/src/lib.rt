//! What is in force at each tick of a file: the changes of tempo, key and signature among its events, the elapsed time at a
//! tick, and the bars, which are laid one after another from tick 0. The rules stand in the base crate's definitions: a
//! change counts from its own tick on, of several at one tick the last, and a signature inside a bar from the next barline.
#![tactic(auto)]

mod bar;
mod changes;
mod in_force;
mod laid;
mod tempo_map;

pub use changes::{Changes, changes_of};
pub use laid::{Laid, lay_bars};
pub use tempo_map::TempoMap;
