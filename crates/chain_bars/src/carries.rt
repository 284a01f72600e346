ghost use Rattle.rhythm_base.specs.declared.limits.TheConstants.{MOST_BARS};
ghost use Rattle.rhythm_base.specs.Paths.{AreCheap};
ghost use Rattle.chain_bars.specs.Tower.{AreCells, IsTower, cost_of, level};
ghost use Rattle.chain_bars.specs.Walks.{AreCarries, AreLonger, descended, number_or};
ghost use Rattle.rhythm_base.specs.Paths.{AreCarried};
ghost use Rattle.rhythm_base.specs.Ranked.{least_key, middle_of};
ghost use Rattle.std.specs.Prelude.{
  ◌≡◌,
  ◌+◌,
  ◌*◌,
  ◌++◌,
  ◌∷◌,
  [],
  slice_index_or,
  ◌-◌,
  ◌<◌,
  ◌≤◌,
  ◌^◌,
  IfOk,
  IsSome,
  length,
};
ghost use Rattle.carry_matrix.specs.LowSums.{HaveLowSums};

use crate::levels::Level;
use carry_matrix::{CarryMatrix, between};
use rhythm_base::Carry;
use std::alloc::{AllocError, Global};

/// The count between two cells: that of their product.
fn count_between(left: &CarryMatrix, right: &CarryMatrix, from: Carry, to: Carry) -> u8
    requires { HaveLowSums left.now right.now }
    ensures { result ≡ number_or (middle_of left.now right.now from to) }
{
    match between(left, right, from, to) {
        Some(count) => count.count(),
        None => 0,
    }
}

/// Adds the count after the node at `left` and its neighbour, after the one between them if there is a neighbour.
fn push_below(
    counts: &mut Vec<u8>,
    nodes: &[CarryMatrix],
    left: usize,
    from: Carry,
    to: Carry,
) -> Result<(), AllocError>
    requires few { length nodes.now ≤ MOST_BARS }
    requires cheap { AreCheap (2 ^ 61 - 1) nodes.now }
    requires left { left < length nodes.now }
    ensures { IfOk result (λ _. AreLonger nodes.now left from to counts.old.items counts.new.items) }
{
    if left + 1 < nodes.len() {
        counts.push(count_between(&nodes[left], &nodes[left + 1], from, to))?;
        counts.push(to.count())?;
        Ok(())
    } else {
        counts.push(to.count())?;
        Ok(())
    }
}

/// The counts at the barlines of a level, from those of the level above it.
fn one_down(alloc: Global, nodes: &[CarryMatrix], above: &[u8]) -> Result<Vec<u8>, AllocError>
    requires few { length nodes.now ≤ MOST_BARS }
    requires cheap { AreCheap (2 ^ 61 - 1) nodes.now }
    requires some { 1 ≤ length above.now }
    requires counts { AreCarried above.now }
    requires covers { length nodes.now ≤ 2 * (length above.now - 1) }
    requires fits { 2 * (length above.now - 1) ≤ length nodes.now + 1 }
    ensures { IfOk result (λ v. v.items ≡ descended nodes.now above.now) }
{
    let mut counts = Vec::new(alloc);
    let mut from = Carry::of(above[0]);
    counts.push(from.count())?;
    'nodes: for number in 1..above.len() {
        let to = Carry::of(above[number]);
        push_below(&mut counts, nodes, 2 * (number - 1), from, to)?;
        from = to;
    }
    Ok(counts)
}

/// The counts at the barlines of the least path from 0 to 0, by walking down from the root.
pub fn carries_of(alloc: Global, levels: &[Level]) -> Result<Vec<u8>, AllocError>
    requires cells { AreCells (level levels.now 0) }
    requires tower { IsTower (level levels.now 0) levels.now }
    requires path { IsSome (cost_of (least_key (level levels.now 0) 0 0)) }
    ensures { IfOk result (λ v. AreCarries (level levels.now 0) v.items) }
{
    let mut counts = Vec::new(alloc);
    counts.push(0)?;
    counts.push(0)?;
    let mut below = levels.len() - 1;
    'down: while below > 0 {
        below = below - 1;
        counts = one_down(alloc, levels[below].slice(), counts.as_slice())?;
    }
    Ok(counts)
}
