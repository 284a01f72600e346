ghost use Rattle.carry_matrix.specs.Choices.{
  AreNearer,
  CountsUnder,
  IsCostOf,
  IsNearer,
  IsRankAmong,
  IsRowChosen,
  choice_code,
};
ghost use Rattle.carry_matrix.specs.Rows.{IsWithin};
ghost use Rattle.std.specs.Prelude.{◌≡◌, ◌<◌, ◌≤◌, ◌^◌, None};

use crate::row::{ABOVE_COSTS, ABSENT, Row};
use rhythm_base::Best;

/// A count in the middle, with the sum of the two costs there, and the ranks on both sides as one number, its order: eight
/// times the rank on the left, and the rank on the right. Where no count has both entries, the cost is `ABOVE_COSTS`, and the
/// order is above all others. The numbers are as wide as leaves no bytes between them, which would be copied with them.
#[derive(Clone, Copy)]
pub struct Choice {
    pub cost: u64,
    pub order: u32,
    pub middle: u32,
}

/// Choices by the number of chords carried out.
pub type Choices = [Choice; 5];

/// No count in the middle.
#[inline(always)]
pub fn none() -> Choice
    ensures { result ≡ choice_code None }
{
    Choice {
        cost: ABOVE_COSTS,
        order: u32::MAX,
        middle: 0,
    }
}

/// What is nearer: the choice, or the sum of two entries round a count in the middle, the right of which stands as a cost
/// and a rank. Ranks are below 8, so an order above `order + 7` is one of a higher rank on the left.
#[inline(always)]
pub fn nearer(best: Choice, left: Best, cost: u64, rank: u8, middle: u8) -> Choice
    requires left { (left.cost < 2 ^ 62) × (left.rank ≤ 5) }
    requires right { (cost ≤ 2 ^ 63) × (rank ≤ 5) }
    ensures { IsNearer best left cost rank middle result }
{
    let sum = left.cost + cost;
    let order = 8 * u32::from(left.rank);
    let is_nearer = sum < best.cost || (sum == best.cost && order + 7 < best.order);
    if is_nearer {
        Choice {
            cost: sum,
            order: order + u32::from(rank),
            middle: u32::from(middle),
        }
    } else {
        best
    }
}

/// What is nearer for each number carried out: the choice, or the sum of an entry and that of a row.
#[inline(always)]
pub fn nearer_row(choices: &Choices, left: Best, row: &Row, middle: u8) -> Choices
    requires left { (left.cost < 2 ^ 62) × (left.rank ≤ 5) }
    requires right { IsWithin row.now }
    ensures { AreNearer choices.now left row.now middle result }
{
    [
        nearer(choices[0], left, row.costs[0], row.ranks[0], middle),
        nearer(choices[1], left, row.costs[1], row.ranks[1], middle),
        nearer(choices[2], left, row.costs[2], row.ranks[2], middle),
        nearer(choices[3], left, row.costs[3], row.ranks[3], middle),
        nearer(choices[4], left, row.costs[4], row.ranks[4], middle),
    ]
}

/// 1 where the choice has a lower order, and else 0.
#[inline(always)]
fn lower(choice: Choice, order: u32) -> u8
    ensures small { result < 2 }
    ensures is { CountsUnder choice order result }
{
    if choice.order < order { 1 } else { 0 }
}

/// How many of the choices have a lower order than one of them, 0 where that is none.
#[inline(always)]
fn rank(choices: &Choices, own: Choice) -> u8
    ensures { IsRankAmong choices.now own result }
{
    if own.cost < ABOVE_COSTS {
        lower(choices[4], own.order)
            + (lower(choices[3], own.order)
                + (lower(choices[2], own.order)
                    + (lower(choices[1], own.order) + lower(choices[0], own.order))))
    } else {
        0
    }
}

/// What stands for the cost of the entry of a choice.
#[inline(always)]
fn cost(own: Choice) -> u64
    ensures { IsCostOf own result }
{
    if own.cost < ABOVE_COSTS {
        own.cost
    } else {
        ABSENT
    }
}

/// The row of the choices.
#[inline(always)]
pub fn row_chosen(choices: &Choices) -> Row
    ensures { IsRowChosen choices.now result }
{
    Row {
        costs: [
            cost(choices[0]),
            cost(choices[1]),
            cost(choices[2]),
            cost(choices[3]),
            cost(choices[4]),
        ],
        ranks: [
            rank(choices, choices[0]),
            rank(choices, choices[1]),
            rank(choices, choices[2]),
            rank(choices, choices[3]),
            rank(choices, choices[4]),
        ],
    }
}
