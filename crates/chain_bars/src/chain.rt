ghost use Rattle.rhythm_base.specs.declared.limits.TheConstants.{MOST_BARS, DEAREST_CELL};
ghost use Rattle.rhythm_base.specs.Counter.{risen};
ghost use Rattle.chain_bars.specs.Products.{RisesOnce, RisesTwice};
ghost use Rattle.chain_bars.specs.Walks.{AreCarries};
ghost use Rattle.rhythm_base.specs.Paths.{IsDeadCell};
ghost use Rattle.rhythm_base.specs.Paths.{AreCheap, IsCheap};
ghost use Rattle.chain_bars.specs.Tower.{cost_of};
ghost use Rattle.rhythm_base.specs.Ranked.{CarryMatrix, five, least_key};
ghost use Rattle.std.specs.Prelude.{◌≡◌, ◌+◌, ◌<◌, ◌≤◌, ◌^◌, ℕ, List, ◌*◌, IfOk, drop, take, IfSome, IsNone, IsSome, ◌↔◌, length, slice_set, ◌++◌, ◌∷◌, [], ◌-◌, IfErr};

use crate::around::{Around, around_of};
use crate::carries::carries_of;
use crate::dead::first_dead_of;
use crate::levels::{Level, extend, grown, renew, reserve_all, see_all, shorten};
use carry_matrix::{CarryMatrix, Steps};
use rhythm_base::Tag;
use std::alloc::{AllocError, Global};
use std::marker::Model;

/// A list of cells, the ranked matrices of a voice's bars, with the products of neighbours above them level by level up to a
/// single one. A lone last product is passed up as it is. The value of a chain is the list of its cells, and its room: up to
/// how many cells it grows without taking memory. The room is at least the number of cells, and no call lowers it.
#[derive(Drop)]
pub struct Chain {
    levels: Vec<Level>,
    room: u32,
}

impl Model for Chain {
    ghost use Rattle.chain_bars.specs.Chain.{Chain};
    ghost use Rattle.chain_bars.specs.Tower.{IsChain, level};

    ghost Value = { Chain };

    ghost view = { λ c. record { cells = level c.levels.items 0; room = c.room } };

    ghost invariant = { λ c. IsChain c.levels.items c.room };
}

impl Chain {
    /// The chain over 1 to 4,096 cells: one product for each cell but one. Costs are at most 500,000,000,000, so that no sum
    /// of them overflows.
    pub fn new<P: Tag>(
        alloc: Global,
        cells: &[CarryMatrix],
        products: &mut Steps<P>,
    ) -> Result<Chain, AllocError>
        requires some { 1 ≤ length cells.now }
        requires few { length cells.now ≤ MOST_BARS }
        requires cheap { AreCheap DEAREST_CELL cells.now }
        ensures cells { IfOk result (λ c. c.cells ≡ cells.now) }
        ensures room { IfOk result (λ c. length cells.now ≤ c.room) }
        ensures products { IfOk result (λ _. products.new ≡ risen products.old (length cells.now - 1)) }
        ensures most { products.new ≤ risen products.old (length cells.now - 1) }
        ensures rises { products.old ≤ products.new }
    {
        see_all(cells);
        let levels = grown(alloc, Level::copy_of(alloc, cells)?, products)?;
        Ok(Chain {
            levels,
            room: cells.len() as u32,
        })
    }

    /// Takes memory, so that the chain grows up to so many cells without taking more. After want of memory the room is as
    /// before.
    pub fn reserve(&mut self, cells: u32) -> Result<(), AllocError>
        ensures cells { self.new.cells ≡ self.old.cells }
        ensures room { self.old.room ≤ self.new.room }
        ensures ok { IfOk result (λ _. cells ≤ self.new.room) }
        ensures err { IfErr result (λ _. self.new.room ≡ self.old.room) }
        ensures fits { length self.new.cells ≤ self.new.room }
    {
        reserve_all(self.levels.as_mut_slice(), cells)?;
        self.room = self.room.max(cells);
        Ok(())
    }

    /// Sets a cell: at most `d` products where there are at most `2 ^ d` cells.
    pub fn replace<P: Tag>(&mut self, at: usize, cell: &CarryMatrix, products: &mut Steps<P>)
        requires at { at < length self.old.cells }
        requires cheap { IsCheap DEAREST_CELL cell.now }
        ensures cells { self.new.cells ≡ slice_set self.old.cells at cell.now }
        ensures room { self.new.room ≡ self.old.room }
        ensures products { RisesOnce (length self.old.cells) products.old products.new }
    {
        renew(self.levels.as_mut_slice(), at, cell, products);
    }

    /// Adds a cell after the last, and takes the memory for it: at most `d` products where there are then at most `2 ^ d`
    /// cells. After want of memory the chain is as before.
    pub fn push<P: Tag>(
        &mut self,
        cell: &CarryMatrix,
        products: &mut Steps<P>,
    ) -> Result<(), AllocError>
        requires few { length self.old.cells < MOST_BARS }
        requires cheap { IsCheap DEAREST_CELL cell.now }
        ensures ok { IfOk result (λ _. self.new.cells ≡ self.old.cells ++ cell.now ∷ []) }
        ensures err { IfErr result (λ _. (self.new ≡ self.old) × (products.new ≡ products.old)) }
        ensures room { self.old.room ≤ self.new.room }
        ensures fits { length self.new.cells ≤ self.new.room }
        ensures products { RisesOnce (length self.old.cells + 1) products.old products.new }
    {
        let count = self.count();
        self.reserve(count + 1)?;
        self.push_within(cell, products);
        Ok(())
    }

    /// Adds a cell after the last, within the room and so without memory: at most `d` products where there are then at most
    /// `2 ^ d` cells.
    pub fn push_within<P: Tag>(&mut self, cell: &CarryMatrix, products: &mut Steps<P>)
        requires few { length self.old.cells < MOST_BARS }
        requires within { length self.old.cells < self.old.room }
        requires cheap { IsCheap DEAREST_CELL cell.now }
        ensures cells { self.new.cells ≡ self.old.cells ++ cell.now ∷ [] }
        ensures room { self.new.room ≡ self.old.room }
        ensures products { RisesOnce (length self.old.cells + 1) products.old products.new }
    {
        extend(self.levels.as_mut_slice(), cell, products);
    }

    /// Takes the last cell away: at most `d` products where there were at most `2 ^ d` cells.
    pub fn pop<P: Tag>(&mut self, products: &mut Steps<P>)
        requires { 1 < length self.old.cells }
        ensures cells { self.new.cells ≡ take (length self.old.cells - 1) self.old.cells }
        ensures room { self.new.room ≡ self.old.room }
        ensures products { RisesOnce (length self.old.cells) products.old products.new }
    {
        shorten(self.levels.as_mut_slice(), products);
    }

    /// The number of cells.
    fn count(&self) -> u32
        ensures { result ≡ length self.now.cells }
    {
        self.levels[0].len() as u32
    }

    /// The cost of the least path from 0 carried in to 0 carried out, none where there is no path.
    pub fn total(&self) -> Option<u64>
        ensures { result ≡ cost_of (least_key self.now.cells 0 0) }
    {
        let levels = self.levels.as_slice();
        let top = levels[levels.len() - 1].slice();
        match top[0].get(0, 0) {
            None => None,
            Some(best) => Some(best.cost),
        }
    }

    /// The counts of chords carried over the barlines on the least path from 0 to 0, from the barline before the first cell
    /// to that after the last.
    #[tactic(auto, using(crate::proofs::Descents::carries_long))]
    pub fn carries(&self, alloc: Global) -> Result<Vec<u8>, AllocError>
        requires { IsSome (cost_of (least_key self.now.cells 0 0)) }
        ensures path { IfOk result (λ v. AreCarries self.now.cells v.items) }
        ensures length { IfOk result (λ v. length v.items ≡ length self.now.cells + 1) }
    {
        carries_of(alloc, self.levels.as_slice())
    }

    /// The first cell over which no counts lead from 0 at the first barline, to 0 after the last cell: for the tables of a
    /// voice, the first bar at which it has no derivation.
    pub fn first_dead(&self) -> Option<u32>
        ensures dead { IfSome result (λ i. IsDeadCell self.now.cells i) }
        ensures none { IsNone result ↔ IsSome (cost_of (least_key self.now.cells 0 0)) }
    {
        first_dead_of(self.levels[0].slice())
    }

    /// The least costs of the cells before a cell, from 0, and of those after it, to 0: at most `2 * d` products where there
    /// are at most `2 ^ d` cells.
    pub fn around<P: Tag>(&self, at: usize, products: &mut Steps<P>) -> Around
        requires at { at < length self.now.cells }
        ensures before { result.before ≡ five (λ to. cost_of (least_key (take at self.now.cells) 0 to)) }
        ensures after { result.after ≡ five (λ from. cost_of (least_key (drop (at + 1) self.now.cells) from 0)) }
        ensures products { RisesTwice (length self.now.cells) products.old products.new }
    {
        around_of(self.levels.as_slice(), at, products)
    }
}
