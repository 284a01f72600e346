//! Pieces and edits that are made from a number: MIDI files of two voices for tests of the whole transcriber, and the
//! edits of a drill. All that looks like chance comes from one stream of draws that starts with the number, so the same
//! number gives the same file and the same edits everywhere.
#![tactic(auto)]

mod beat;
mod draws;
mod drill;
mod figure;
mod file;
mod piece_bars;
mod piece_number;
mod track;
mod voice;
mod voice_channel;

pub use drill::{LATEST_DRILLED, drill_edit};
pub use file::generate;
pub use piece_bars::{MOST_PIECE_BARS, PieceBars};
pub use piece_number::{GREATEST_NUMBER, PieceNumber};
