ghost use Rattle.rhythm_base.specs.declared.limits.TheConstants.{MOST_BARS};
ghost use Rattle.rhythm_base.specs.Paths.{AreCheap, IsCheap};
ghost use Rattle.chain_bars.specs.Products.{RisesTwice};
ghost use Rattle.chain_bars.specs.Sides.{IsJoinedLeft, IsJoinedRight, costs_from_none, costs_to_none};
ghost use Rattle.chain_bars.specs.Tower.{AreCells, IsTower, best_cost, level};
ghost use Rattle.carry_matrix.specs.LowSums.{HaveLowSums};
ghost use Rattle.rhythm_base.specs.Counter.{risen};
ghost use Rattle.rhythm_base.specs.Ranked.{at, five, least_key, product_of};
ghost use Rattle.std.specs.Prelude.{
  ◌≡◌,
  ◌+◌,
  ◌*◌,
  ◌/◌,
  ◌-◌,
  ◌<◌,
  ◌≤◌,
  ◌^◌,
  ◌≢◌,
  ℕ,
  [],
  drop,
  length,
  slice_index_or,
  take,
};

use crate::levels::Level;
use carry_matrix::{CarryMatrix, Steps, product};
use rhythm_base::{Best, Carry, Tag};

/// The least costs of the cells round one of them, each by a number of chords, 0 to 4; none where there is no path.
#[derive(Clone, Copy, Debug, PartialEq, Eq)]
pub struct Around {
    /// Of the cells before it, by the number carried into it.
    pub before: [Option<u64>; 5],
    /// Of the cells after it, by the number carried out of it.
    pub after: [Option<u64>; 5],
}

fn cost_at(entry: Option<Best>) -> Option<u64>
    ensures { result ≡ best_cost entry }
{
    match entry {
        Some(best) => Some(best.cost),
        None => None,
    }
}

/// The costs of what begins with nothing carried, by the number carried out.
fn costs_from_none(matrix: &CarryMatrix) -> [Option<u64>; 5]
    ensures { result ≡ five (λ to. best_cost (at matrix.now 0 to)) }
{
    let mut costs = [None; 5];
    'counts: for to in 0..5u8 {
        costs[to as usize] = cost_at(matrix.entry(Carry::none(), Carry::of(to)));
    }
    costs
}

/// The costs of what ends with nothing carried, by the number carried in.
fn costs_to_none(matrix: &CarryMatrix) -> [Option<u64>; 5]
    ensures { result ≡ five (λ from. best_cost (at matrix.now from 0)) }
{
    let mut costs = [None; 5];
    'counts: for from in 0..5u8 {
        costs[from as usize] = cost_at(matrix.entry(Carry::of(from), Carry::none()));
    }
    costs
}

/// What stands before a node under the one above it, and then `before`.
fn with_left<P: Tag>(
    nodes: &[CarryMatrix],
    place: usize,
    before: &CarryMatrix,
    products: &mut Steps<P>,
) -> CarryMatrix
    requires place { place < length nodes.now }
    requires cheap { AreCheap (2 ^ 61 - 1) nodes.now }
    requires small { IsCheap (2 ^ 61 - 1) before.now }
    ensures joined { IsJoinedLeft nodes.now place before.now result }
    ensures products { products.new ≤ risen products.old 1 }
    ensures rises { products.old ≤ products.new }
    ensures single { length nodes.now ≤ 1 → products.new ≡ products.old }
{
    let left = 2 * (place / 2);
    if left < place {
        product(&nodes[left], before, products)
    } else {
        *before
    }
}

/// `after`, and then what stands after a node under the one above it.
fn with_right<P: Tag>(
    nodes: &[CarryMatrix],
    place: usize,
    after: &CarryMatrix,
    products: &mut Steps<P>,
) -> CarryMatrix
    requires few { length nodes.now ≤ MOST_BARS }
    requires place { place < length nodes.now }
    requires cheap { AreCheap (2 ^ 61 - 1) nodes.now }
    requires small { IsCheap (2 ^ 61 - 1) after.now }
    ensures joined { IsJoinedRight nodes.now place after.now result }
    ensures products { products.new ≤ risen products.old 1 }
    ensures rises { products.old ≤ products.new }
    ensures single { length nodes.now ≤ 1 → products.new ≡ products.old }
{
    if 2 * (place / 2) < place {
        *after
    } else if place + 1 < nodes.len() {
        product(after, &nodes[place + 1], products)
    } else {
        *after
    }
}

/// The least costs of the cells before a cell and of those after it: at most two products at each level.
pub fn around_of<P: Tag>(levels: &[Level], at: usize, products: &mut Steps<P>) -> Around
    requires cells { AreCells (level levels.now 0) }
    requires tower { IsTower (level levels.now 0) levels.now }
    requires at { at < length (level levels.now 0) }
    ensures before { result.before ≡ costs_from_none (take at (level levels.now 0)) }
    ensures after { result.after ≡ costs_to_none (drop (at + 1) (level levels.now 0)) }
    ensures products { RisesTwice (length (level levels.now 0)) products.old products.new }
{
    let mut before = CarryMatrix::identity();
    let mut after = CarryMatrix::identity();
    let mut place = at;
    'up: for below in 0..levels.len() - 1 {
        before = with_left(levels[below].slice(), place, &before, products);
        after = with_right(levels[below].slice(), place, &after, products);
        place = place / 2;
    }
    Around {
        before: costs_from_none(&before),
        after: costs_to_none(&after),
    }
}
