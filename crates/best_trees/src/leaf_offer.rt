ghost use Rattle.best_trees.specs.Firsts.{AreKeptKeys};
ghost use Rattle.best_trees.specs.Grids.{ranking_at};
ghost use Rattle.best_trees.specs.Leaves.{HasLeafOffered, IsSmallLeaf};
ghost use Rattle.rhythm_base.specs.Line.{agrees};
ghost use Rattle.std.specs.Prelude.{◌≡◌, ◌<◌, ℕ, OnOk};

use crate::grid::Grid;
use bar_view::Leaf;
use rhythm_base::{Carry, Ending};
use std::alloc::{AllocError, Global};

/// Whether this ending of a leaf agrees with so many chords attached to it, where the latest chord sounds in it or not.
fn agrees(ending: Ending, count: usize, sounds: bool) -> bool
    ensures { result ≡ agrees ending count sounds }
{
    match ending {
        Ending::Note => count == 1 && sounds,
        Ending::Short => count == 1 && !sounds,
        Ending::Tie => count == 0 && sounds,
        Ending::Rest => count == 0 && !sounds,
        Ending::Grace(graces) => (0 < graces && graces < 4) && count == graces as usize + 1,
    }
}

/// Offers the leaf with the rule of this number, which ends it so and weighs so much, for each pair of counts with which it
/// fits.
pub fn offer_leaf(
    alloc: Global,
    count: usize,
    ending: Ending,
    leaf: Leaf,
    weight: u32,
    number: u16,
    best: &mut Grid,
) -> Result<(), AllocError>
    requires leaf { IsSmallLeaf leaf }
    requires kept { (a b : ℕ) → a < 5 → b < 5 → AreKeptKeys count (ranking_at best.old a b) }
    ensures { OnOk result (HasLeafOffered count ending leaf weight number best.old best.new) }
{
    let cost = u64::from(weight) + leaf.charges;
    let next = Carry::of(leaf.next);
    'counts: for from in 0..5u8 {
        if agrees(ending, usize::from(from + leaf.own), leaf.sounds) {
            best.offer(alloc, count, Carry::of(from), next, cost, &[number])?;
        }
    }
    Ok(())
}
