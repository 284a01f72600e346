ghost use Rattle.std.specs.Prelude.{◌≤◌, length};

use carry_matrix::CarryMatrix;
use chain_bars::Chain;
use rhythm_base::Carry;
use std::alloc::{AllocError, Global};

/// A way over the first cells: its cost, the list of its ranks, and the counts at the barlines that it has passed.
#[derive(Clone, Copy)]
pub struct Way {
    pub cost: u64,
    pub ranks: [u8; 9],
    pub counts: [u8; 10],
}

/// A way that goes on over a cell.
fn onward(
    way: Option<Way>,
    cell: &CarryMatrix,
    number: usize,
    from: Carry,
    to: Carry,
) -> Option<Way> {
    let mut longer = way?;
    let entry = cell.entry(from, to)?;
    longer.cost = longer.cost.saturating_add(entry.cost);
    *longer.ranks.get_mut(number)? = entry.rank;
    *longer.counts.get_mut(number.checked_add(1)?)? = to.count();
    Some(longer)
}

/// That of the lesser cost, and of equal costs that with the lower list of ranks.
fn lesser(first: Option<Way>, second: Option<Way>) -> Option<Way> {
    match (first, second) {
        (Some(x), Some(y)) => Some(if (y.cost, y.ranks) < (x.cost, x.ranks) {
            y
        } else {
            x
        }),
        (Some(x), None) => Some(x),
        (None, other) => other,
    }
}

/// The least way to a count after a cell.
fn least_to(ways: &[Option<Way>; 5], cell: &CarryMatrix, number: usize, to: Carry) -> Option<Way> {
    let mut least = None;
    'counts: for from in 0..5u8 {
        let way = onward(ways[from as usize], cell, number, Carry::of(from), to);
        least = lesser(least, way);
    }
    least
}

/// The least way over the cells to each count, by walking from cell to cell.
fn walk(cells: &[CarryMatrix]) -> [Option<Way>; 5] {
    let start = Way {
        cost: 0,
        ranks: [0; 9],
        counts: [0; 10],
    };
    let mut ways = [Some(start), None, None, None, None];
    'cells: for number in 0..cells.len() {
        let mut next = [None; 5];
        'counts: for to in 0..5u8 {
            next[to as usize] = least_to(&ways, &cells[number], number, Carry::of(to));
        }
        ways = next;
    }
    ways
}

/// Whether a chain answers with the cost and the counts of the least way over these cells.
pub fn is_walked(alloc: Global, chain: &Chain, cells: &[CarryMatrix]) -> Result<bool, AllocError>
    requires { length cells.now ≤ 9 }
{
    let [least, _, _, _, _] = walk(cells);
    if chain.total().is_none() {
        return Ok(least.is_none());
    }
    let carries = chain.carries(alloc)?;
    match least {
        None => Ok(false),
        Some(way) => Ok(
            chain.total() == Some(way.cost) && carries.as_slice() == &way.counts[..cells.len() + 1],
        ),
    }
}
