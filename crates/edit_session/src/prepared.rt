ghost use Rattle.edit_session.specs.Prepared.{cell_of, bar_table_of};
ghost use Rattle.edit_session.specs.ReachedCells.{place_pair};
ghost use Rattle.std.specs.Prelude.{◌≡◌, IfOk, [], length, map, vec_capacity};

use crate::reached::CellPlace;
use least_cost::BarTable;
use rhythm_base::Performance;
use std::alloc::{AllocError, Global};
use std::marker::Model;

/// The table of a cell.
#[derive(Drop)]
pub struct CellTable {
    pub(crate) channel: u8,
    pub(crate) bar: u32,
    pub(crate) table: BarTable,
}

impl Model for CellTable {
    ghost use Rattle.edit_session.specs.Prepared.{CellTable};
    ghost use Rattle.edit_session.specs.PreparedCode.{cell_table_code};

    ghost Value = { CellTable };

    ghost coded = { cell_table_code };

    ghost view = { λ t. record { channel = t.channel; bar = t.bar; table = t.table } };
}

/// What an edit leads to, made ready: the performance after it, the tables of the cells that it reaches, and memory for the
/// tables that are taken out for them.
#[derive(Drop)]
pub struct Prepared {
    next: Performance,
    tables: Vec<CellTable>,
    place: Vec<CellTable>,
}

impl Model for Prepared {
    ghost use Rattle.std.specs.Coded.{codes};
    ghost use Rattle.edit_session.specs.Prepared.{Prepared};
    ghost use Rattle.edit_session.specs.PreparedCode.{cell_table_code};
    ghost use Rattle.rhythm_base.specs.PerformanceCode.{performance_code};

    ghost Value = { Prepared };

    ghost coded = { Prim.hlevel (codes, performance_code, cell_table_code) };

    ghost use Rattle.std.specs.Prelude.{◌≡◌, [], vec_capacity};

    ghost view = { λ x. record { next = x.next; tables = x.tables.items; place = vec_capacity x.place } };

    ghost invariant = { λ x. x.place.items ≡ [] };
}

/// The table of each of these cells.
pub fn placed_tables(
    alloc: Global,
    cells: &[CellPlace],
    mut tables: Vec<BarTable>,
) -> Result<Vec<CellTable>, AllocError>
    requires { length tables.items ≡ length cells.now }
    ensures cells { IfOk result (λ v. map cell_of v.items ≡ map place_pair cells.now) }
    ensures tables { IfOk result (λ v. map bar_table_of v.items ≡ tables.items) }
{
    let mut placed = Vec::with_capacity(alloc, cells.len())?;
    tables.reverse();
    'cells: for number in 0..cells.len() {
        let cell = cells[number];
        placed.push(CellTable {
            channel: cell.channel,
            bar: cell.bar,
            table: tables.take_last(),
        })?;
    }
    Ok(placed)
}

impl Prepared {
    /// What is prepared, of these parts: `place` has no tables yet.
    pub(crate) fn of(next: Performance, tables: Vec<CellTable>, place: Vec<CellTable>) -> Prepared
        requires { place.items ≡ [] }
        ensures { result ≡ record { next = next; tables = tables.items; place = vec_capacity place } }
    {
        Prepared {
            next,
            tables,
            place,
        }
    }

    /// Its parts: what `of` was given.
    pub(crate) fn parts(self) -> (Performance, Vec<CellTable>, Vec<CellTable>)
        ensures next { result.0 ≡ self.next }
        ensures tables { result.1.items ≡ self.tables }
        ensures place { vec_capacity result.2 ≡ self.place }
        ensures none { result.2.items ≡ [] }
    {
        (self.next, self.tables, self.place)
    }

    /// The performance that comes next.
    pub fn next(&self) -> &Performance
        ensures { result.now ≡ self.now.next }
    {
        &self.next
    }

    /// Its tables.
    pub(crate) fn cells(&self) -> &[CellTable]
        ensures { result.now ≡ self.now.tables }
    {
        self.tables.as_slice()
    }

    /// The number of its tables.
    pub fn tables(&self) -> u64
        ensures { result ≡ length self.now.tables }
    {
        self.tables.len() as u64
    }
}
