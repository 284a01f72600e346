//! Barlines that follow the player: where the barlines of a performance do not fit how it was played, the edit script that moves them
//! to where they do. `follow` gives it for a session. `best_barlines` looks for barlines round after round, each list of them valued by
//! the least cost of its trees and the prices of its bars; `follow_script` is the script to barlines.
#![tactic(auto)]

mod barlines;
mod barring;
mod batch;
mod cells;
mod costs;
mod crew;
mod find;
mod following;
mod gather;
mod heads;
mod laws;
mod least;
mod longer;
mod next_bar;
mod offers;
mod round;
mod script;
mod search;
mod stages;
mod trial;
mod tried;
mod voice;
mod weigh;

pub use barring::Barring;
pub use following::follow;
pub use laws::{
    answers_are_one, answers_gain, bests_are_one, edits_lead_to_one, few_are_reached,
    found_are_one, fronts_are_one, head_costs_are_one, most_built_are_one, offers_are_few,
    offers_are_one, scripts_are_in_range, scripts_set_barlines,
};
pub use script::follow_script;
pub use search::best_barlines;
