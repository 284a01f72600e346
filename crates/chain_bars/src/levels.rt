ghost use Rattle.rhythm_base.specs.declared.limits.TheConstants.{MOST_BARS, DEAREST_CELL};
ghost use Rattle.rhythm_base.specs.Counter.{risen};
ghost use Rattle.chain_bars.specs.Endings.{HasNewEnd};
ghost use Rattle.chain_bars.specs.Products.{RisesOnce};
ghost use Rattle.rhythm_base.specs.Paths.{AreCheap, IsCheap, IsRanked};
ghost use Rattle.chain_bars.specs.Tower.{AreCells, HasRoom, IsTower, best_cost, cost_of, halved, level, node_at, level_above, level_of, room_at};
ghost use Rattle.path_laws.specs.Tables.{AllRanked};
ghost use Rattle.rhythm_base.specs.Ranked.{CarryMatrix, at, least_key};
ghost use Rattle.std.specs.Prelude.{
  ◌≡◌,
  ◌+◌,
  ◌*◌,
  ◌-◌,
  ◌<◌,
  ◌≤◌,
  ◌^◌,
  ℕ,
  List,
  IfErr,
  IfOk,
  Some,
  [],
  ◌++◌,
  ◌∷◌,
  ◌/◌,
  take,
  IsTrue,
  ◌↔◌,
  length,
  slice_set,
  slice_index_or,
};

use carry_matrix::{CarryMatrix, Steps, product};
use rhythm_base::Tag;
use std::alloc::{AllocError, Global};
use std::marker::Model;

/// The lowest level has the cells, and the highest a single node: 2 to the power 12 is 4,096.
const LEVELS: usize = 13;

/// The nodes of a level, and memory for more of them.
#[derive(Drop)]
pub struct Level {
    nodes: Vec<CarryMatrix>,
}

impl Model for Level {
    ghost use Rattle.chain_bars.specs.Tower.{Level};
    ghost use Rattle.std.specs.Prelude.{vec_capacity};

    ghost Value = { Level };

    ghost view = { λ l. record { nodes = l.nodes.items; room = vec_capacity l.nodes } };
}

impl Level {
    /// The cells, as the lowest level.
    pub fn copy_of(alloc: Global, cells: &[CarryMatrix]) -> Result<Level, AllocError>
        ensures nodes { IfOk result (λ l. l.nodes ≡ cells.now) }
        ensures room { IfOk result (λ l. length cells.now ≤ l.room) }
    {
        Ok(Level {
            nodes: cells.to_vec(alloc)?,
        })
    }

    /// The number of nodes.
    pub fn len(&self) -> usize
        ensures { result ≡ length self.now.nodes }
    {
        self.nodes.len()
    }

    /// The nodes.
    pub fn slice(&self) -> &[CarryMatrix]
        ensures { result.now ≡ self.now.nodes }
    {
        self.nodes.as_slice()
    }

    /// Takes memory for so many nodes.
    pub fn reserve(&mut self, count: usize) -> Result<(), AllocError>
        ensures nodes { self.new.nodes ≡ self.old.nodes }
        ensures room { self.old.room ≤ self.new.room }
        ensures ok { IfOk result (λ _. count ≤ self.new.room) }
    {
        let more = count.saturating_sub(self.nodes.len());
        self.nodes.reserve(more)
    }

    /// Sets a node.
    pub fn set(&mut self, at: usize, node: CarryMatrix)
        requires { at < length self.old.nodes }
        ensures nodes { self.new.nodes ≡ slice_set self.old.nodes at node }
        ensures room { self.new.room ≡ self.old.room }
    {
        self.nodes[at] = node;
    }

    /// Keeps the first `count` nodes.
    pub fn keep(&mut self, count: usize)
        ensures nodes { self.new.nodes ≡ take count self.old.nodes }
        ensures room { self.new.room ≡ self.old.room }
    {
        self.nodes.truncate(count);
    }

    /// Adds a node after the last.
    pub fn add(&mut self, node: CarryMatrix)
        requires { length self.old.nodes < self.old.room }
        ensures nodes { self.new.nodes ≡ self.old.nodes ++ node ∷ [] }
        ensures room { self.new.room ≡ self.old.room }
    {
        self.nodes.push_reserved(node);
    }

    /// Keeps the nodes before the place `last`, and puts a node there.
    pub fn end_with(&mut self, last: usize, node: CarryMatrix)
        requires { last < self.old.room }
        ensures nodes { self.new.nodes ≡ take last self.old.nodes ++ node ∷ [] }
        ensures room { self.new.room ≡ self.old.room }
    {
        self.nodes.truncate(last);
        self.nodes.push_reserved(node);
    }

    /// The level above.
    pub fn paired<P: Tag>(
        &self,
        alloc: Global,
        products: &mut Steps<P>,
    ) -> Result<Level, AllocError>
        requires few { length self.now.nodes ≤ MOST_BARS }
        requires cheap { AreCheap (2 ^ 61 - 1) self.now.nodes }
        ensures nodes { IfOk result (λ l. l.nodes ≡ level_above self.now.nodes) }
        ensures room { IfOk result (λ l. (length self.now.nodes + 1) / 2 ≤ l.room) }
        ensures products { IfOk result (λ _. products.new ≡ risen products.old (length self.now.nodes / 2)) }
        ensures none { IfErr result (λ _. products.new ≡ products.old) }
        ensures rises { products.old ≤ products.new }
    {
        let count = (self.len() + 1) / 2;
        let mut nodes = Vec::with_capacity(alloc, count)?;
        'pairs: for number in 0..count {
            nodes.push_reserved(joined(self.slice(), number, products));
        }
        Ok(Level { nodes })
    }
}

/// What stands above two neighbours, or above a lone last one.
pub fn joined<P: Tag>(nodes: &[CarryMatrix], at: usize, products: &mut Steps<P>) -> CarryMatrix
    requires few { length nodes.now ≤ MOST_BARS }
    requires at { 2 * at < length nodes.now }
    requires cheap { AreCheap (2 ^ 61 - 1) nodes.now }
    ensures result { result ≡ node_at nodes.now at }
    ensures two { 2 * at + 1 < length nodes.now → products.new ≡ risen products.old 1 }
    ensures lone { length nodes.now ≤ 2 * at + 1 → products.new ≡ products.old }
    ensures rises { products.old ≤ products.new }
{
    let first = &nodes[2 * at];
    match nodes.get(2 * at + 1) {
        Some(second) => product(first, second, products),
        None => *first,
    }
}

/// What every cell keeps.
pub fn see_all(cells: &[CarryMatrix])
    ensures { AllRanked cells.now }
{
    'cells: for number in 0..cells.len() {
        cells[number].see();
    }
}

/// The cells and the levels above them: one product for each cell but one.
pub fn grown<P: Tag>(
    alloc: Global,
    cells: Level,
    products: &mut Steps<P>,
) -> Result<Vec<Level>, AllocError>
    requires cells { AreCells cells.nodes }
    requires room { length cells.nodes ≤ cells.room }
    ensures tower { IfOk result (λ v. IsTower cells.nodes v.items) }
    ensures room { IfOk result (λ v. HasRoom (length cells.nodes) v.items) }
    ensures products { IfOk result (λ _. products.new ≡ risen products.old (length cells.nodes - 1)) }
    ensures most { products.new ≤ risen products.old (length cells.nodes - 1) }
    ensures rises { products.old ≤ products.new }
{
    let mut levels = Vec::new(alloc);
    levels.push(cells)?;
    'up: for above in 1..LEVELS {
        let next = levels[above - 1].paired(alloc, products)?;
        levels.push(next)?;
    }
    Ok(levels)
}

/// Takes memory for what stands above so many cells.
pub fn reserve_all(levels: &mut [Level], cells: u32) -> Result<(), AllocError>
    requires { length levels.old ≡ 13 }
    ensures count { length levels.new ≡ 13 }
    ensures nodes { (k : ℕ) → k < 13 → level levels.new k ≡ level levels.old k }
    ensures room { (k : ℕ) → k < 13 → room_at levels.old k ≤ room_at levels.new k }
    ensures ok { IfOk result (λ _. HasRoom cells levels.new) }
{
    let mut count = cells as usize;
    'up: for number in 0..levels.len() {
        levels[number].reserve(count)?;
        count = (count + 1) / 2;
    }
    Ok(())
}

/// Sets a cell, and renews what stands above it.
pub fn renew<P: Tag>(levels: &mut [Level], at: usize, cell: &CarryMatrix, products: &mut Steps<P>)
    requires cells { AreCells (level levels.old 0) }
    requires tower { IsTower (level levels.old 0) levels.old }
    requires at { at < length (level levels.old 0) }
    requires cheap { IsCheap DEAREST_CELL cell.now }
    ensures cells { level levels.new 0 ≡ slice_set (level levels.old 0) at cell.now }
    ensures tower { IsTower (level levels.new 0) levels.new }
    ensures sound { AreCells (level levels.new 0) }
    ensures room { (k : ℕ) → k < 13 → room_at levels.new k ≡ room_at levels.old k }
    ensures products { RisesOnce (length (level levels.old 0)) products.old products.new }
{
    cell.see();
    levels[0].set(at, *cell);
    let mut place = at;
    'up: for above in 1..levels.len() {
        place = place / 2;
        let node = joined(levels[above - 1].slice(), place, products);
        levels[above].set(place, node);
    }
}

/// Renews the last node of each level, where the lowest has got a new end.
fn renew_last<P: Tag>(levels: &mut [Level], products: &mut Steps<P>)
    requires { HasNewEnd levels.old }
    ensures cells { level levels.new 0 ≡ level levels.old 0 }
    ensures tower { IsTower (level levels.old 0) levels.new }
    ensures room { (k : ℕ) → k < 13 → room_at levels.new k ≡ room_at levels.old k }
    ensures products { RisesOnce (length (level levels.old 0)) products.old products.new }
{
    'renewal: for above in 1..levels.len() {
        let nodes = levels[above - 1].slice();
        let last = (nodes.len() - 1) / 2;
        let node = joined(nodes, last, products);
        levels[above].end_with(last, node);
    }
}

/// Adds a cell after the last, and renews the last node of each level above it.
pub fn extend<P: Tag>(levels: &mut [Level], cell: &CarryMatrix, products: &mut Steps<P>)
    requires cells { AreCells (level levels.old 0) }
    requires tower { IsTower (level levels.old 0) levels.old }
    requires few { length (level levels.old 0) < MOST_BARS }
    requires room { HasRoom (length (level levels.old 0) + 1) levels.old }
    requires cheap { IsCheap DEAREST_CELL cell.now }
    ensures cells { level levels.new 0 ≡ level levels.old 0 ++ cell.now ∷ [] }
    ensures sound { AreCells (level levels.new 0) }
    ensures tower { IsTower (level levels.new 0) levels.new }
    ensures room { (k : ℕ) → k < 13 → room_at levels.new k ≡ room_at levels.old k }
    ensures products { RisesOnce (length (level levels.old 0) + 1) products.old products.new }
{
    cell.see();
    levels[0].add(*cell);
    renew_last(levels, products);
}

/// Takes the last cell away, and renews the last node of each level above it.
pub fn shorten<P: Tag>(levels: &mut [Level], products: &mut Steps<P>)
    requires cells { AreCells (level levels.old 0) }
    requires tower { IsTower (level levels.old 0) levels.old }
    requires two { 2 ≤ length (level levels.old 0) }
    requires room { HasRoom (length (level levels.old 0)) levels.old }
    ensures cells { level levels.new 0 ≡ take (length (level levels.old 0) - 1) (level levels.old 0) }
    ensures sound { AreCells (level levels.new 0) }
    ensures tower { IsTower (level levels.new 0) levels.new }
    ensures room { (k : ℕ) → k < 13 → room_at levels.new k ≡ room_at levels.old k }
    ensures products { RisesOnce (length (level levels.old 0)) products.old products.new }
{
    let count = levels[0].len() - 1;
    levels[0].keep(count);
    renew_last(levels, products);
}
