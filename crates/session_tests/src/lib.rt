//! The tests of an editing session: edits one after another, with the cells that they reach, the costs and the scores, and
//! changes that are made, refused and taken back; its history; barlines that are fitted; and whole drills. Beside them a
//! proved caller, which shows how the crates are used from another program.
#![tactic(auto)]

mod library;

pub use library::{NoScore, OneEdit, edited_score};

#[cfg(test)]
mod changes;
#[cfg(test)]
mod drills;
#[cfg(test)]
mod edits;
#[cfg(test)]
mod fits;
#[cfg(test)]
mod histories;
#[cfg(test)]
mod pieces;
