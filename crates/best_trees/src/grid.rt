ghost use Rattle.best_trees.specs.Firsts.{AreKeptKeys};
ghost use Rattle.best_trees.specs.Grids.{
  AreAllAddable,
  HasJoined,
  HasLists,
  HasOffered,
  is_pair,
  joined_at,
  joined_row,
  ranking_at,
};
ghost use Rattle.std.specs.Prelude.{◌≡◌, ◌<◌, ◌^◌, ℕ, [], IfOk, OnOk};

use crate::ranking::Ranking;
use rhythm_base::Carry;
use std::alloc::{AllocError, Global};
use std::marker::Model;

/// The best trees of an interval by the number of chords carried in and the number carried out.
#[derive(Drop)]
pub struct Grid {
    rankings: Vec<Ranking>,
}

impl Model for Grid {
    ghost use Rattle.rhythm_base.specs.Ranked.{Key};
    ghost use Rattle.std.specs.Prelude.{◌≡◌, List, length};

    ghost Value = { List (List Key) };

    ghost view = { λ g. g.rankings.items };

    ghost invariant = { λ g. length g.rankings.items ≡ 25 };
}

/// Trees on the left and others on the right, at this cost more and with these rules before theirs.
#[derive(Clone, Copy)]
pub struct Sides<'a> {
    pub cost: u64,
    pub top: &'a [u16],
    pub left: &'a Grid,
    pub right: &'a Grid,
}

impl Grid {
    /// No trees for any counts.
    pub fn none(alloc: Global) -> Result<Grid, AllocError>
        ensures { IfOk result (HasLists (λ from to. [])) }
    {
        let mut rankings = Vec::with_capacity(alloc, 25)?;
        'pairs: for _pair in 0..25usize {
            rankings.push(Ranking::none(alloc))?;
        }
        Ok(Grid { rankings })
    }

    /// The best trees for these counts.
    pub fn at(&self, from: Carry, to: Carry) -> &Ranking
        ensures value { result.now ≡ ranking_at self.now from to }
        ensures from { from < 5 }
        ensures to { to < 5 }
    {
        &self.rankings[5 * from.index() + to.index()]
    }

    /// Offers trees of this cost and with these rules for these counts.
    pub fn offer(
        &mut self,
        alloc: Global,
        count: usize,
        from: Carry,
        to: Carry,
        cost: u64,
        rules: &[u16],
    ) -> Result<(), AllocError>
        requires kept { AreKeptKeys count (ranking_at self.old from to) }
        ensures { OnOk result (HasOffered count (is_pair from to) (cost, rules.now) self.old self.new) }
    {
        self.rankings[5 * from.index() + to.index()].offer(alloc, count, cost, rules, &[], &[])?;
        Ok(())
    }

    /// Offers the trees on the left followed by others on the right, with any count between them.
    pub fn offer_joined(
        &mut self,
        alloc: Global,
        count: usize,
        sides: &Sides<'_>,
    ) -> Result<(), AllocError>
        requires kept { (a b : ℕ) → a < 5 → b < 5 → AreKeptKeys count (ranking_at self.old a b) }
        requires cost { sides.now.cost < 2 ^ 62 }
        requires left { AreAllAddable sides.now.left.now }
        requires right { AreAllAddable sides.now.right.now }
        ensures { OnOk result (HasJoined count sides.now self.old self.new) }
    {
        'pairs: for pair in 0..25u8 {
            let best = &mut self.rankings[usize::from(pair)];
            let from = Carry::of(pair / 5);
            let to = Carry::of(pair % 5);
            offer_at(alloc, count, sides, from, to, best)?;
        }
        Ok(())
    }
}

/// Offers the trees on the left followed by others on the right for one pair of counts.
fn offer_at(
    alloc: Global,
    count: usize,
    sides: &Sides<'_>,
    from: Carry,
    to: Carry,
    best: &mut Ranking,
) -> Result<(), AllocError>
    requires kept { AreKeptKeys count best.old }
    requires cost { sides.now.cost < 2 ^ 62 }
    requires left { AreAllAddable sides.now.left.now }
    requires right { AreAllAddable sides.now.right.now }
    ensures { OnOk result (best.new ≡ joined_at count sides.now from to best.old) }
{
    'counts: for number in 0..5u8 {
        let middle = Carry::of(number);
        let first = sides.left.at(from, middle);
        if first.is_empty() {
            continue;
        }
        let second = sides.right.at(middle, to);
        if second.is_empty() {
            continue;
        }
        best.offer_sums(alloc, count, sides.cost, sides.top, first, second)?;
    }
    Ok(())
}

/// The best trees on the left followed by others on the right, for each pair of counts.
pub fn join(alloc: Global, count: usize, left: &Grid, right: &Grid) -> Result<Grid, AllocError>
    requires left { AreAllAddable left.now }
    requires right { AreAllAddable right.now }
    ensures { IfOk result (HasLists (λ a b. joined_row count (0, []) left.now right.now a b [])) }
{
    let mut grid = Grid::none(alloc)?;
    let sides = Sides {
        cost: 0,
        top: &[],
        left,
        right,
    };
    grid.offer_joined(alloc, count, &sides)?;
    Ok(grid)
}
