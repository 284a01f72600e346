//! Cuts a voice at the barlines: for each bar the input of its cell, which is all that the least trees of that bar depend
//! on. One pass over the chords. Where most inputs are known already, the sections tell which are not, and take no memory for each bar.
#![tactic(auto)]

mod cells;
mod fault;
mod inner;
mod laws;
mod lookup;
mod section;
mod starts;

pub use cells::{cut, section_of, sections};
pub use fault::CutFault;
pub use laws::performances_can_be_cut;
pub use section::Section;
pub use starts::check_starts;
