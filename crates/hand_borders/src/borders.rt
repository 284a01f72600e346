ghost use Rattle.hand_borders.specs.Borders as borders;
ghost use Rattle.hand_borders.specs.Ways.{AreNearest, AreNearestBelow, AreWays, IsLowest, follow};
ghost use Rattle.rhythm_base.specs.declared.limits.TheConstants.{MOST_NOTES};
ghost use Rattle.std.specs.Prelude.{◌≡◌, ◌≤◌, ◌<◌, ◌+◌, ◌∷◌, ◌^◌, All, IfOk, length, reverse, slice_index, ℕ};

use std::alloc::{AllocError, Global};

/// How many borders there are: 0 to 128. The keys below a border are on its left.
pub const BORDERS: usize = 129;

/// What a key costs that the border moves.
const MOVE: u64 = 200;

/// What it costs to go on from each border, by the borders up to it, in place of what it costs there; and to which of them.
fn ways_down(costs: &mut [u64; BORDERS]) -> [u8; BORDERS]
    requires { All (λ c. c ≤ 2 ^ 60) costs.old }
    ensures { AreNearestBelow costs.old 129 costs.new result }
{
    let mut borders = [0u8; BORDERS];
    'borders: for border in 1..BORDERS {
        let lower = costs[border - 1] + MOVE;
        if lower <= costs[border] {
            costs[border] = lower;
            borders[border] = borders[border - 1];
        } else {
            borders[border] = border as u8;
        }
    }
    borders
}

/// What it costs to go on from each border, in place of what it costs there; and to which it is best to go.
fn ways_from(costs: &mut [u64; BORDERS]) -> [u8; BORDERS]
    requires { All (λ c. c ≤ 2 ^ 60) costs.old }
    ensures { AreNearest costs.old costs.new result }
{
    let mut borders = ways_down(costs);
    'borders: for border in (0..BORDERS - 1).rev() {
        let higher = costs[border + 1] + MOVE;
        if higher < costs[border] {
            costs[border] = higher;
            borders[border] = borders[border + 1];
        }
    }
    borders
}

/// Adds a group's own cost at each border.
fn add_group(costs: &mut [u64; BORDERS], group: &[u32; BORDERS])
    requires { All (λ c. c ≤ 2 ^ 60) costs.old }
    ensures sums { (k : ℕ) → k < 129 → slice_index costs.new k ≡ slice_index group.now k + slice_index costs.old k }
    ensures few { (k : ℕ) → k < 129 → slice_index costs.new k ≤ slice_index costs.old k + 4294967295 }
{
    'borders: for border in 0..BORDERS {
        costs[border] += u64::from(group[border]);
    }
}

/// The first border of least cost.
fn lowest(costs: &[u64; BORDERS]) -> u8
    ensures { IsLowest costs.now result }
{
    let mut found = 0;
    'borders: for border in 1..BORDERS {
        if costs[border] < costs[found] {
            found = border;
        }
    }
    found as u8
}

/// The borders of a way: the first, and where each list says to go from there, the last list first.
fn followed(alloc: Global, first: u8, mut ways: Vec<[u8; BORDERS]>) -> Result<Vec<u8>, AllocError>
    requires first { first < 129 }
    requires ways { All AreWays ways.items }
    ensures { IfOk result (λ v. v.items ≡ first ∷ follow (reverse ways.items) first) }
{
    let mut borders = vec![in alloc; first]?;
    let mut border = first;
    'groups: while let Some(to) = ways.pop() {
        border = to[border as usize];
        borders.push(border)?;
    }
    Ok(borders)
}

/// The borders of least cost, and of those that cost as much the first in the order of words. Each group of notes costs so much
/// at each border, and each key that the border moves from a group to the next costs 200.
pub fn least_borders(alloc: Global, groups: &[[u32; BORDERS]]) -> Result<Vec<u8>, AllocError>
    requires few { length groups.now ≤ MOST_NOTES }
    ensures { IfOk result (λ v. v.items ≡ borders.least_borders groups.now) }
{
    let count = groups.len();
    if count == 0 {
        return Ok(Vec::new(alloc));
    }
    let mut after = [0; BORDERS];
    add_group(&mut after, &groups[count - 1]);
    let mut list = Vec::new(alloc);
    'groups: for done in 1..count {
        let ways = ways_from(&mut after);
        add_group(&mut after, &groups[count - 1 - done]);
        list.push(ways)?;
    }
    followed(alloc, lowest(&after), list)
}
