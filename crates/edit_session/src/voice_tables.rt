ghost use Rattle.rhythm_base.specs.declared.limits.TheConstants.{DEAREST_CELL, MOST_BARS};
ghost use Rattle.bar_alternatives.specs.Laws.{costs_after, costs_before};
ghost use Rattle.chain_bars.specs.Laws.{matrices};
ghost use Rattle.chain_bars.specs.Walks.{AreCarries};
ghost use Rattle.chain_bars.specs.Products.{RisesOnce, RisesTwice};
ghost use Rattle.edit_session.specs.VoiceTables.{HasPath, HasTables, IsGrown, path_cost};
ghost use Rattle.rhythm_base.specs.BarTables.{BarTable};
ghost use Rattle.rhythm_base.specs.Paths.{AreCheap, IsCheap, IsDeadCell};
ghost use Rattle.std.specs.List.{flat_map};
ghost use Rattle.std.specs.Prelude.{
  ◌≡◌,
  ◌+◌,
  ◌*◌,
  ◌≤◌,
  ◌<◌,
  ◌^◌,
  ◌++◌,
  ◌↔◌,
  ℕ,
  [],
  ◌∷◌,
  All,
  IfOk,
  IfSome,
  IsNone,
  OnOk,
  length,
  reverse,
  slice_index_or,
  slice_set,
  vec_capacity,
};

use carry_matrix::{CarryMatrix, Steps};
use chain_bars::{Around, Chain};
use least_cost::BarTable;
use rhythm_base::Tag;
use std::alloc::{AllocError, Global};
use std::marker::Model;
use std::mem;

/// The table of each bar of a voice, and the chain over them.
#[derive(Drop)]
pub struct VoiceTables {
    tables: Vec<BarTable>,
    chain: Chain,
}

impl Model for VoiceTables {
    ghost use Rattle.std.specs.Coded.{codes};
    ghost use Rattle.least_cost.specs.TableCode.{table_code};
    ghost use Rattle.edit_session.specs.VoiceTables.{VoiceTables};

    ghost Value = { VoiceTables };

    ghost coded = { Prim.hlevel (codes, table_code) };

    ghost use Rattle.std.specs.Prelude.{◌≡◌, min, vec_capacity};
    ghost use Rattle.chain_bars.specs.Laws.{matrices};

    ghost view = { λ v. record {
      tables = v.tables.items;
      room = min v.chain.room (vec_capacity v.tables);
    } };

    ghost invariant = { λ v. v.chain.cells ≡ matrices v.tables.items };
}

/// The matrices of the tables, one after another.
fn matrices_of(alloc: Global, tables: &[BarTable]) -> Result<Vec<CarryMatrix>, AllocError>
    ensures { IfOk result (λ v. v.items ≡ matrices tables.now) }
{
    tables.iter().map(|table| *table.matrix()).collect(alloc)
}

impl VoiceTables {
    /// The tables of 1 to 4,096 bars, and the chain over them.
    pub fn new<P: Tag>(
        alloc: Global,
        tables: Vec<BarTable>,
        products: &mut Steps<P>,
    ) -> Result<VoiceTables, AllocError>
        requires some { 1 ≤ length tables.items }
        requires few { length tables.items ≤ MOST_BARS }
        requires cheap { AreCheap DEAREST_CELL (matrices tables.items) }
        ensures tables { IfOk result (λ v. v.tables ≡ tables.items) }
        ensures room { IfOk result (λ v. length tables.items ≤ v.room) }
        ensures rises { products.old ≤ products.new }
    {
        let matrices = matrices_of(alloc, tables.as_slice())?;
        let chain = Chain::new(alloc, matrices.as_slice(), products)?;
        Ok(VoiceTables { tables, chain })
    }

    /// Takes memory, so that the voice grows up to so many bars without taking more.
    pub fn reserve(&mut self, bars: u32) -> Result<(), AllocError>
        requires { bars ≤ MOST_BARS }
        ensures grown { IsGrown self.old self.new }
        ensures ok { OnOk result (bars ≤ self.new.room) }
    {
        self.chain.reserve(bars)?;
        let more = (bars as usize).saturating_sub(self.tables.len());
        self.tables.reserve(more)
    }

    /// Puts a table in the place of another, which it gives: at most `d` products where there are at most `2 ^ d` bars.
    pub fn swap<P: Tag>(&mut self, bar: usize, table: BarTable, products: &mut Steps<P>) -> BarTable
        requires bar { bar < length self.old.tables }
        requires cheap { IsCheap DEAREST_CELL table.matrix }
        ensures table { (d : BarTable) → result ≡ slice_index_or self.old.tables bar d }
        ensures tables { self.new.tables ≡ slice_set self.old.tables bar table }
        ensures room { self.new.room ≡ self.old.room }
        ensures products { RisesOnce (length self.old.tables) products.old products.new }
    {
        self.chain.replace(bar, table.matrix(), products);
        mem::replace(&mut self.tables[bar], table)
    }

    /// Adds the table of a bar after the last, within the room and so without memory: at most `d` products where there are
    /// then at most `2 ^ d` bars.
    pub fn push_within<P: Tag>(&mut self, table: BarTable, products: &mut Steps<P>)
        requires few { length self.old.tables < MOST_BARS }
        requires within { length self.old.tables < self.old.room }
        requires cheap { IsCheap DEAREST_CELL table.matrix }
        ensures tables { self.new.tables ≡ self.old.tables ++ table ∷ [] }
        ensures room { self.new.room ≡ self.old.room }
        ensures products { RisesOnce (length self.old.tables + 1) products.old products.new }
    {
        self.chain.push_within(table.matrix(), products);
        self.tables.push_reserved(table);
    }

    /// Takes the table of the last bar off: at most `d` products where there were at most `2 ^ d` bars.
    pub fn pop<P: Tag>(&mut self, products: &mut Steps<P>) -> BarTable
        requires { 1 < length self.old.tables }
        ensures tables { self.old.tables ≡ self.new.tables ++ result ∷ [] }
        ensures room { self.new.room ≡ self.old.room }
        ensures products { RisesOnce (length self.old.tables) products.old products.new }
    {
        self.chain.pop(products);
        self.tables.take_last()
    }

    /// The tables, bar after bar.
    pub fn tables(&self) -> &[BarTable]
        ensures { result.now ≡ self.now.tables }
    {
        self.tables.as_slice()
    }

    /// What the least path over the tables costs, where there is a path.
    pub fn total(&self) -> Option<u64>
        ensures { result ≡ path_cost self.now.tables }
    {
        self.chain.total()
    }

    /// The first bar over whose table no path leads, where no path leads over them all. Where one does no bar is looked at.
    pub fn first_dead(&self) -> Option<u32>
        ensures dead { IfSome result (λ bar. IsDeadCell (matrices self.now.tables) bar) }
        ensures none { IsNone result ↔ HasPath self.now }
    {
        if self.chain.total().is_some() {
            return None;
        }
        self.chain.first_dead()
    }

    /// The counts of chords carried over the barlines on the least path.
    pub fn carries(&self, alloc: Global) -> Result<Vec<u8>, AllocError>
        requires { HasPath self.now }
        ensures path { IfOk result (λ v. AreCarries (matrices self.now.tables) v.items) }
        ensures length { IfOk result (λ v. length v.items ≡ length self.now.tables + 1) }
    {
        self.chain.carries(alloc)
    }

    /// The least costs of the bars before a bar, and of those after it: at most `2 * d` products where there are at most `2 ^ d`
    /// bars.
    pub fn around<P: Tag>(&self, bar: usize, products: &mut Steps<P>) -> Around
        requires { bar < length self.now.tables }
        ensures before { result.before ≡ costs_before self.now.tables bar }
        ensures after { result.after ≡ costs_after self.now.tables bar }
        ensures products { RisesTwice (length self.now.tables) products.old products.new }
    {
        self.chain.around(bar, products)
    }
}
