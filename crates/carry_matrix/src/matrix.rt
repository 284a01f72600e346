ghost use Rattle.carry_matrix.specs.Rows.{AreRows, IsWithin, entries_of, row_code};
ghost use Rattle.rhythm_base.specs.Paths.{AreLow, IsLow, IsRanked};
ghost use Rattle.rhythm_base.specs.Ranked.{at, identity_entries};
ghost use Rattle.std.specs.Prelude.{◌≡◌, ◌<◌, ◌≤◌, IfSome};

use crate::row::{Row, entry, row_of};
use rhythm_base::{Best, Carry};
use std::marker::Model;

/// The least way for each number of chords carried in, 0 to 4, and each carried out. The ranks of a row are the numbers
/// from 0, each once; a cost is below 2 to the power 62.
#[derive(Clone, Copy)]
pub struct CarryMatrix {
    rows: [Row; 5],
}

impl Model for CarryMatrix {
    ghost use Rattle.rhythm_base.specs.Ranked.{CarryMatrix};

    ghost Value = { CarryMatrix };

    ghost use Rattle.carry_matrix.specs.Rows.{AreRows, entries_of, rows_of};
    ghost use Rattle.std.proofs.Common.{sym};

    ghost view = { λ m. entries_of m.rows };

    ghost invariant = { λ m. AreRows m.rows };

    ghost inverse = { λ v. record { rows = rows_of v } };

    ghost inverse_ok = { λ a h. λ i. record { rows = sym h.coded i } };
}

impl CarryMatrix {
    /// The matrix of these entries, by the number carried in and then by the number carried out.
    pub fn make(entries: [[Option<Best>; 5]; 5]) -> CarryMatrix
        requires ranks { IsRanked entries }
        requires costs { AreLow entries }
        ensures { result ≡ entries }
    {
        let first = row_of(&entries[0]);
        let second = row_of(&entries[1]);
        let third = row_of(&entries[2]);
        let fourth = row_of(&entries[3]);
        let fifth = row_of(&entries[4]);
        CarryMatrix::of([first, second, third, fourth, fifth])
    }

    /// The matrix of these rows.
    #[inline(always)]
    pub(crate) fn of(rows: [Row; 5]) -> CarryMatrix
        requires { AreRows rows }
        ensures { result ≡ entries_of rows }
    {
        CarryMatrix { rows }
    }

    /// Cost 0 and rank 0 on the diagonal and nothing else: no product with it changes a matrix.
    pub fn identity() -> CarryMatrix
        ensures { result ≡ identity_entries }
    {
        let own = Some(Best { cost: 0, rank: 0 });
        CarryMatrix::make([
            [own, None, None, None, None],
            [None, own, None, None, None],
            [None, None, own, None, None],
            [None, None, None, own, None],
            [None, None, None, None, own],
        ])
    }

    /// The entry for these numbers carried in and out, each 0 to 4.
    #[inline(always)]
    pub fn get(&self, from: u8, to: u8) -> Option<Best>
        requires from { from < 5 }
        requires to { to < 5 }
        ensures is { result ≡ at self.now from to }
        ensures sound { IsRanked self.now }
        ensures low { IsLow result }
    {
        self.entry(Carry::of(from), Carry::of(to))
    }

    /// The entry for these numbers carried in and out.
    #[inline(always)]
    pub fn entry(&self, from: Carry, to: Carry) -> Option<Best>
        ensures is { result ≡ at self.now from to }
        ensures sound { IsRanked self.now }
        ensures low { IsLow result }
        ensures rank { IfSome result (λ best. best.rank ≤ 5) }
    {
        let row = &self.rows[from.index()];
        let place = to.index();
        entry(row.costs[place], row.ranks[place])
    }

    /// The entries for this number carried in.
    #[inline(always)]
    pub(crate) fn row(&self, from: Carry) -> &Row
        ensures is { result.now ≡ row_code (at self.now from) }
        ensures within { IsWithin result.now }
    {
        &self.rows[from.index()]
    }

    /// What every matrix keeps: a proof sees it after this call, which does nothing.
    #[inline(always)]
    pub fn see(&self)
        ensures { IsRanked self.now }
    {
        let _ = &self.rows;
    }
}
