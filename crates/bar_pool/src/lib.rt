//! Builds the tables of many cells: one table for each input, in their order, and one step of the counter for each. Equal
//! inputs are found first (sources). Then the first of each kind is searched, in turn (search) or by several workers
//! (workers), who draw what they search next (draws), and whose tables are moved to their places (places). At last the
//! others take over the tables of their equals (spread). What is searched is a job (job): of tables, or of costs alone, for
//! the numbers carried in that are asked for (order).
#![tactic(auto)]

mod draws;
mod input_key;
mod job;
mod laws;
mod limits;
mod order;
mod places;
mod pool;
mod rooms;
mod search;
mod sources;
mod spread;
mod workers;

pub use draws::{
    Draw, DrawCounts, DrawRule, DrawSeat, DrawTable, HalfShare, SeatView, SharedDraws, Takeover,
};
pub use input_key::{are_equal, digest};
pub use job::Job;
pub use laws::draws_keep_their_law;
pub use order::{AskedCell, CostOrder, Order};
pub use pool::{build_all_costs, build_cells};
pub use rooms::Rooms;
