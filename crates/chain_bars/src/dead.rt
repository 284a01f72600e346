ghost use Rattle.rhythm_base.specs.declared.limits.TheConstants.{MOST_BARS};
ghost use Rattle.chain_bars.specs.Reaches.{AreStepped, CanStep, HasMarked};
ghost use Rattle.chain_bars.specs.Tower.{cost_of};
ghost use Rattle.rhythm_base.specs.Paths.{IsDeadCell};
ghost use Rattle.rhythm_base.specs.Ranked.{least_key};
ghost use Rattle.std.specs.Prelude.{
  ◌≡◌,
  ◌<◌,
  ◌≤◌,
  ◌↔◌,
  ℕ,
  IfSome,
  IsNone,
  IsSome,
  IsTrue,
  false,
  length,
  slice_index_or,
};

use carry_matrix::CarryMatrix;
use rhythm_base::Carry;

/// Whether some reached count leads over a cell to the count `to`.
fn leads_to(reached: &[bool; 5], cell: &CarryMatrix, to: Carry) -> bool
    ensures { IsTrue result ↔ CanStep reached.now cell.now to }
{
    'counts: for from in 0..5u8 {
        if reached[from as usize] && cell.entry(Carry::of(from), to).is_some() {
            return true;
        }
    }
    false
}

/// The counts after a cell.
fn after(reached: &[bool; 5], cell: &CarryMatrix) -> [bool; 5]
    ensures { AreStepped reached.now cell.now result }
{
    let mut next = [false; 5];
    'counts: for to in 0..5u8 {
        next[to as usize] = leads_to(reached, cell, Carry::of(to));
    }
    next
}

/// Whether any of them is reached.
fn is_any(reached: &[bool; 5]) -> bool
    ensures { IsTrue result ↔ HasMarked reached.now }
{
    reached[0] || reached[1] || reached[2] || reached[3] || reached[4]
}

/// The first cell over which no counts lead from 0, the last of them to 0.
pub fn first_dead_of(cells: &[CarryMatrix]) -> Option<u32>
    requires some { 1 ≤ length cells.now }
    requires few { length cells.now ≤ MOST_BARS }
    ensures dead { IfSome result (λ i. IsDeadCell cells.now i) }
    ensures none { IsNone result ↔ IsSome (cost_of (least_key cells.now 0 0)) }
{
    let mut reached = [true, false, false, false, false];
    'cells: for number in 0..cells.len() {
        let next = after(&reached, &cells[number]);
        if !is_any(&next) {
            return Some(number as u32);
        }
        reached = next;
    }
    if reached[0] {
        None
    } else {
        Some((cells.len() - 1) as u32)
    }
}
