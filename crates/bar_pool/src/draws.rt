use atomic_table::{Join, Play, Seat, Shared, Split, Table, TableRule};
use std::alloc::Global;
use std::collections::LinkedList;

/// How many inputs there are, and how many workers draw.
#[derive(Clone, Copy)]
pub struct DrawCounts {
    pub inputs: u64,
    pub workers: u64,
}

/// What a seat knows: its share, the numbers that it drew, its draws past the inputs, and the counts. No value of it is made.
pub struct SeatView {
    pub share: u64,
    pub drawn: LinkedList<u64>,
    pub past: u64,
    pub inputs: u64,
    pub workers: u64,
}

/// The rule of the table of draws: between any two steps its word and the views of its seats meet the law of draws.
pub struct DrawRule;

impl TableRule<u8, SeatView, DrawCounts> for DrawRule {
    ghost use Rattle.bar_pool.specs.DrawTable.{IsDrawTable, first_view};

    ghost holds = { λ c s. IsDrawTable c s.words s.views };

    ghost first = { first_view };
}

/// A seat draws the next number.
pub struct Draw;

impl Play<u8, SeatView> for Draw {
    ghost use Rattle.bar_pool.specs.DrawTable.{IsDrawn};

    ghost then = { IsDrawn };
}

/// A seat gives half of its share to a new seat.
pub struct HalfShare;

impl Split<SeatView> for HalfShare {
    ghost use Rattle.bar_pool.specs.DrawTable.{given_half, kept_half};

    ghost left = { kept_half };

    ghost right = { given_half };
}

/// A seat takes over all that another has.
pub struct Takeover;

impl Join<SeatView> for Takeover {
    ghost use Rattle.bar_pool.specs.DrawTable.{spent_view, view_with};

    ghost both = { view_with };

    ghost spent = { spent_view };
}

/// A table of one word, the number that is drawn next. It has no slots.
pub type DrawTable = Table<u8, SeatView, DrawCounts, DrawRule, Global>;

/// The table as the workers see it.
pub type SharedDraws = Shared<u8, SeatView, DrawCounts, DrawRule>;

/// A seat at the table.
pub type DrawSeat = Seat<u8, SeatView>;
