ghost use Rattle.bar_alternatives.specs.BestTrees.{AreSmall};
ghost use Rattle.best_trees.specs.Firsts.{AreKeptKeys, AreAddable};
ghost use Rattle.best_trees.specs.Grids.{AreAllAddable};
ghost use Rattle.bar_alternatives.specs.Totals.{totals, totals_offered};
ghost use Rattle.std.specs.Prelude.{◌≡◌, ◌<◌, ◌^◌, ℕ, IfOk, OnOk, Some};

use best_trees::{Grid, Ranking};
use rhythm_base::Carry;
use std::alloc::{AllocError, Global};

/// Offers the trees at their costs together with these two, where both are there.
fn offer_totals(
    alloc: Global,
    count: usize,
    first: Option<u64>,
    last: Option<u64>,
    trees: &Ranking,
    best: &mut Ranking,
) -> Result<(), AllocError>
    requires first { (c : ℕ) → first ≡ Some c → c < 2 ^ 60 }
    requires last { (c : ℕ) → last ≡ Some c → c < 2 ^ 60 }
    requires trees { AreAddable trees.now }
    requires kept { AreKeptKeys count best.old }
    ensures { OnOk result (best.new ≡ totals_offered count first last trees.now best.old) }
{
    let Some(first) = first else {
        return Ok(());
    };
    let Some(last) = last else {
        return Ok(());
    };
    best.offer_each(alloc, count, first + last, &[], &[], trees)
}

/// The best trees at their costs together with those before and after.
pub fn best_totals(
    alloc: Global,
    count: usize,
    grid: &Grid,
    before: &[Option<u64>; 5],
    after: &[Option<u64>; 5],
) -> Result<Ranking, AllocError>
    requires grid { AreAllAddable grid.now }
    requires before { AreSmall before.now }
    requires after { AreSmall after.now }
    ensures { IfOk result (λ best. best ≡ totals count before.now after.now grid.now) }
{
    let mut best = Ranking::none(alloc);
    'pairs: for pair in 0..25 {
        let (from, to) = (pair / 5, pair % 5);
        let trees = grid.at(Carry::of(from as u8), Carry::of(to as u8));
        offer_totals(alloc, count, before[from], after[to], trees, &mut best)?;
    }
    Ok(best)
}
