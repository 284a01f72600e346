//! A take prepared by options: what was recorded on a keyboard is brought to the meter, tempo, upbeat and key that were meant,
//! its hands are split into two channels, at a key or by a border that moves with them, its strummed chords begin together,
//! and its drums are left out. Each option is a map of takes that has a definition of
//! its own, and the options are taken in one order, whatever the order in which they are given. The performance that is
//! loaded of a prepared take is well formed.
#![tactic(auto)]

mod division;
mod drums;
mod elapsed;
mod groups;
mod hands;
mod keying;
mod laws;
mod meter;
mod middle;
mod options;
mod parted;
mod prepare_fault;
mod preparing;
mod shift;
mod split;
mod strum;
mod tempo;
mod upbeat;

pub use laws::{
    drums_are_out, hands_are_least, hands_keep_notes, hands_leave_one_key, hands_lie_apart,
    no_options_change_nothing, prepared_performances_are_one,
    prepared_performances_are_well_formed, splits_keep_notes, strums_change_nothing_again,
    strums_have_no_key_twice, strums_keep_notes, strums_stay_between, tempos_keep_places,
    tempos_keep_time, upbeats_keep_distances,
};
pub use options::{Fraction, Options};
pub use prepare_fault::PrepareFault;
pub use preparing::prepared;
