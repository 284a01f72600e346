ghost use Rattle.least_rows.specs.Ways.{AreShort, IsShort, one_way, way_in};
ghost use Rattle.least_rows.specs.Places.{IsSeatPlace};
ghost use Rattle.least_rows.specs.Searches.{IsSearch};
ghost use Rattle.least_rows.specs.States.{AreKnown, Grows, HasState};
ghost use Rattle.least_rows.specs.Steps.{AreWaysOver, CarriesAtMost, IsRowOf, KeepsRow, LeadsOver, way_to_none, AreLeafChoices, AreAllChoices};
ghost use Rattle.least_rows.specs.declared.lead.Lead.TheVariants.{Several};
ghost use Rattle.least_rows.specs.Tops.{AreWaysTo, IsOffered, IsRowOfPart, IsTop, AreChoicesBeforeTop, AreChoicesWithTop, IsOfferedWithin};
ghost use Rattle.grammar_plan.specs.Plans.{between};
ghost use Rattle.std.specs.Prelude.{◌≡◌, ◌+◌, ◌<◌, ◌≤◌, ◌^◌, ℕ, IfOk, None, OnOk, length, slice_set};
ghost use Rattle.least_rows.specs.Memo.{slot_at, IsLookedUp, IsInSlot, IsKept, GivesState, GivesRow};

use crate::choice::{Choices, limit_below, offer_entries, offer_way};
use crate::entry::Entry;
use crate::fork::{Fork, PartAt};
use crate::lead::{Lead, RowLead, lead_by_quiet, lead_by_row};
use crate::leaf_choices::{most_out, offer_leaf};
use crate::quiet_tree::least_quiet;
use crate::quiet_ways::rest_of_several;
use crate::search::Search;
use crate::settled::settle;
use crate::state::{RowSpan, State};
use crate::top::Top;
use crate::way::Way;
use crate::ways::join;
use grammar_plan::{Cut, Plan, Seat};
use rhythm_base::Carry;
use std::alloc::{AllocError, Global};

/// A seat with so many cuts has many: there it pays to look at choices for one to three chords carried out, too.
const MANY_CUTS: u32 = 16;

/// All rows of a bar that were found so far.
#[derive(Drop)]
pub struct Rows {
    /// By the seat and the place, as numbers that may collide: the state that was looked for last.
    pub table: Vec<u32>,
    pub states: Vec<State>,
    pub entries: Vec<Entry>,
}

/// Where the state of a seat from a unit on is looked for. It may be past the table's end.
#[inline(always)]
fn slot_of(seat: &Seat, place: u16) -> usize
    ensures { result ≡ slot_at seat.now place }
{
    let shift = u32::from(place).wrapping_mul(seat.inverse) >> 16;
    seat.base.wrapping_add(shift) as usize
}

/// Writes the number of a state into the table, where the slot is within.
#[inline(always)]
fn write_slot(table: &mut Vec<u32>, slot: usize, number: u32)
    ensures { table.new.items ≡ slice_set table.old.items slot number }
{
    if let Some(cell) = table.get_mut(slot) {
        *cell = number;
    }
}

impl Rows {
    /// No rows.
    pub fn new(alloc: Global) -> Rows {
        Rows {
            table: Vec::new(alloc),
            states: Vec::new(alloc),
            entries: Vec::new(alloc),
        }
    }

    /// The entries of a row.
    #[inline(always)]
    pub fn entries_of(&self, span: RowSpan) -> &[Entry]
        requires within { span.first + span.count ≤ length self.now.entries.items }
        ensures { result.now ≡ between self.now.entries.items span.first (span.first + span.count) }
    {
        let first = span.first as usize;
        &self.entries[first..first + span.count as usize]
    }

    /// The number of the state of a seat from a unit on, where the table has it.
    #[inline(always)]
    fn known_state(&self, slot: usize, seat: u32, place: u16) -> Option<usize>
        ensures { IsLookedUp self.now slot seat place result }
    {
        let number = *self.table.get(slot)? as usize;
        let state = self.states.get(number)?;
        if state.seat == seat && state.place == place {
            Some(number)
        } else {
            None
        }
    }

    /// Adds the state of a seat from a unit on.
    #[inline(never)]
    fn add_state(
        &mut self,
        search: &Search<'_>,
        slot: usize,
        seat: u32,
        place: u16,
    ) -> Result<usize, AllocError>
        requires search { IsSearch search.now }
        requires place { IsSeatPlace search.now seat place }
        requires known { AreKnown search.now self.old }
        ensures known { OnOk result (AreKnown search.now self.new) }
        ensures grows { OnOk result (Grows self.old self.new) }
        ensures state { IfOk result (λ n. HasState self.new n seat place) }
        ensures slot { IfOk result (IsInSlot self.new slot seat place) }
    {
        let number = u32::try_from(self.states.len()).ok().ok_or(AllocError)?;
        let plan = search.plan;
        let width = plan.seats[seat as usize].width;
        let leaf = search.view.leaf(search.grammar, search.input, place, width);
        self.states.push(State {
            seat,
            place,
            leaf,
            rows: [None; 5],
        })?;
        write_slot(&mut self.table, slot, number);
        Ok(number as usize)
    }

    /// The number of the state of a seat from a unit on.
    #[inline(always)]
    fn state(&mut self, search: &Search<'_>, seat: u32, place: u16) -> Result<usize, AllocError>
        requires search { IsSearch search.now }
        requires place { IsSeatPlace search.now seat place }
        requires known { AreKnown search.now self.old }
        ensures known { OnOk result (AreKnown search.now self.new) }
        ensures grows { OnOk result (Grows self.old self.new) }
        ensures state { IfOk result (λ n. HasState self.new n seat place) }
        ensures slot { IfOk result (IsKept search.now self.new seat place) }
        ensures memo { GivesState search.now self.old self.new seat place result }
    {
        let plan = search.plan;
        let slot = slot_of(&plan.seats[seat as usize], place);
        match self.known_state(slot, seat, place) {
            Some(number) => Ok(number),
            None => self.add_state(search, slot, seat, place),
        }
    }

    /// Keeps the row of a state.
    fn keep_row(
        &mut self,
        number: usize,
        from: Carry,
        best: &mut Choices,
    ) -> Result<RowSpan, AllocError>
        requires number { number < length self.old.states.items }
        ensures { IfOk result (KeepsRow self.old self.new number from best.old) }
    {
        let span = settle(&mut self.entries, best)?;
        self.states[number].rows[from.count() as usize] = Some(span);
        Ok(span)
    }

    /// The row of a seat from the unit `place` on, with `from` chords carried in.
    #[cycle(rows)]
    #[inline(always)]
    pub fn row(
        &mut self,
        search: &Search<'_>,
        seat: u32,
        place: u16,
        from: Carry,
    ) -> Result<RowSpan, AllocError>
        requires search { IsSearch search.now }
        requires place { IsSeatPlace search.now seat place }
        requires known { AreKnown search.now self.old }
        ensures known { OnOk result (AreKnown search.now self.new) }
        ensures grows { OnOk result (Grows self.old self.new) }
        ensures row { IfOk result (IsRowOf search.now self.new seat place from) }
    {
        let number = self.state(search, seat, place)?;
        self.row_of(search, number, seat, place, from)
    }

    /// The row of a state.
    #[cycle(rows)]
    #[inline(always)]
    fn row_of(
        &mut self,
        search: &Search<'_>,
        number: usize,
        seat: u32,
        place: u16,
        from: Carry,
    ) -> Result<RowSpan, AllocError>
        requires search { IsSearch search.now }
        requires place { IsSeatPlace search.now seat place }
        requires known { AreKnown search.now self.old }
        requires state { HasState self.old number seat place }
        ensures known { OnOk result (AreKnown search.now self.new) }
        ensures grows { OnOk result (Grows self.old self.new) }
        ensures row { IfOk result (IsRowOf search.now self.new seat place from) }
        ensures memo { GivesRow self.old self.new number from result }
    {
        match self.states[number].rows[from.count() as usize] {
            Some(span) => Ok(span),
            None => {
                let found = self.find_row(search, number, seat, place, from)?;
                Ok(found)
            }
        }
    }

    /// Finds the row of a state.
    #[cycle(rows)]
    #[inline(never)]
    fn find_row(
        &mut self,
        search: &Search<'_>,
        number: usize,
        seat: u32,
        place: u16,
        from: Carry,
    ) -> Result<RowSpan, AllocError>
        requires search { IsSearch search.now }
        requires place { IsSeatPlace search.now seat place }
        requires known { AreKnown search.now self.old }
        requires state { HasState self.old number seat place }
        ensures known { OnOk result (AreKnown search.now self.new) }
        ensures grows { OnOk result (Grows self.old self.new) }
        ensures row { IfOk result (IsRowOf search.now self.new seat place from) }
    {
        let _few = from.count();
        let plan = search.plan;
        let leaf = self.states[number].leaf;
        let most = most_out(leaf);
        let mut best = [None; 5];
        offer_leaf(&mut best, search, &plan.seats[seat as usize], leaf, from);
        self.offer_cuts(search, seat, place, from, most, &mut best)?;
        let span = self.keep_row(number, from, &mut best)?;
        Ok(span)
    }

    /// Offers the trees with a cut of the seat on top. No more than `most` chords are carried out of them. The three calls come to
    /// the same: they stand apart so that a loop over few cuts has its number as a constant, and asks nothing at each cut.
    #[cycle(rows)]
    #[inline(always)]
    fn offer_cuts(
        &mut self,
        search: &Search<'_>,
        seat: u32,
        place: u16,
        from: Carry,
        most: u8,
        best: &mut Choices,
    ) -> Result<(), AllocError>
        requires search { IsSearch search.now }
        requires place { IsSeatPlace search.now seat place }
        requires most { CarriesAtMost search.now seat place most }
        requires known { AreKnown search.now self.old }
        requires best { AreLeafChoices search.now seat place from best.old }
        ensures known { OnOk result (AreKnown search.now self.new) }
        ensures grows { OnOk result (Grows self.old self.new) }
        ensures best { OnOk result (AreAllChoices search.now seat place from best.new) }
    {
        if most == 0 {
            return self.offer_each(search, seat, place, from, 0, best);
        }
        let own = &search.plan.seats[seat as usize];
        if own.end - own.first < MANY_CUTS {
            return self.offer_each(search, seat, place, from, 4, best);
        }
        self.offer_many(search, seat, place, from, most, best)
    }

    /// Offers the trees with a cut of a seat on top that has many cuts.
    #[cycle(rows)]
    #[inline(never)]
    fn offer_many(
        &mut self,
        search: &Search<'_>,
        seat: u32,
        place: u16,
        from: Carry,
        most: u8,
        best: &mut Choices,
    ) -> Result<(), AllocError>
        requires search { IsSearch search.now }
        requires place { IsSeatPlace search.now seat place }
        requires most { CarriesAtMost search.now seat place most }
        requires known { AreKnown search.now self.old }
        requires best { AreLeafChoices search.now seat place from best.old }
        ensures known { OnOk result (AreKnown search.now self.new) }
        ensures grows { OnOk result (Grows self.old self.new) }
        ensures best { OnOk result (AreAllChoices search.now seat place from best.new) }
    {
        self.offer_each(search, seat, place, from, most, best)
    }

    /// Offers the trees with a cut of the seat on top, one cut after the other.
    #[cycle(rows)]
    #[inline(always)]
    fn offer_each(
        &mut self,
        search: &Search<'_>,
        seat: u32,
        place: u16,
        from: Carry,
        most: u8,
        best: &mut Choices,
    ) -> Result<(), AllocError>
        requires search { IsSearch search.now }
        requires place { IsSeatPlace search.now seat place }
        requires most { CarriesAtMost search.now seat place most }
        requires known { AreKnown search.now self.old }
        requires best { AreLeafChoices search.now seat place from best.old }
        ensures known { OnOk result (AreKnown search.now self.new) }
        ensures grows { OnOk result (Grows self.old self.new) }
        ensures best { OnOk result (AreAllChoices search.now seat place from best.new) }
    {
        let _few = from.count();
        let plan = search.plan;
        let first = plan.seats[seat as usize].first;
        let end = plan.seats[seat as usize].end;
        'cuts: for number in first..end {
            let top = Top {
                seat,
                place,
                from,
                number,
            };
            let cut = &plan.cuts[number as usize];
            self.offer_cut(search, top, cut, most, best)?;
        }
        Ok(())
    }

    /// Offers the trees with this cut on top, but for those that cost too much to be the least. As long as one way alone leads
    /// on, it is followed alone.
    #[cycle(rows)]
    #[inline(always)]
    fn offer_cut(
        &mut self,
        search: &Search<'_>,
        top: Top,
        cut: &Cut,
        most: u8,
        best: &mut Choices,
    ) -> Result<(), AllocError>
        requires search { IsSearch search.now }
        requires top { IsTop search.now top cut.now }
        requires most { CarriesAtMost search.now top.seat top.place most }
        requires known { AreKnown search.now self.old }
        requires best { AreChoicesBeforeTop search.now top best.old }
        ensures known { OnOk result (AreKnown search.now self.new) }
        ensures grows { OnOk result (Grows self.old self.new) }
        ensures best { OnOk result (AreChoicesWithTop search.now top best.new) }
    {
        let Some(limit) = limit_below(best, most, cut) else {
            return Ok(());
        };
        let way = Way {
            cost: 0,
            order: 0,
            way: 0,
        };
        let start = Fork {
            way,
            count: top.from,
            part: cut.first,
            at: top.place,
        };
        self.offer_along(search, top, cut, start, limit, best)
    }

    /// Offers the trees with this cut on top that go one way up to a part, but for those whose way over the parts costs more than
    /// the limit. As long as one way alone leads on, it is followed alone.
    #[cycle(rows)]
    #[inline(always)]
    fn offer_along(
        &mut self,
        search: &Search<'_>,
        top: Top,
        cut: &Cut,
        start: Fork,
        limit: u64,
        best: &mut Choices,
    ) -> Result<(), AllocError>
        requires search { IsSearch search.now }
        requires top { IsTop search.now top cut.now }
        requires part { (cut.now.first ≤ start.part) × (start.part ≤ cut.now.end) }
        requires ways { AreWaysTo search.now top cut.now start.part start.at (one_way start.way start.count) }
        requires known { AreKnown search.now self.old }
        ensures known { OnOk result (AreKnown search.now self.new) }
        ensures grows { OnOk result (Grows self.old self.new) }
        ensures best { OnOk result (IsOfferedWithin search.now top cut.now limit best.old best.new) }
    {
        let _few = start.count.count();
        let mut way = start.way;
        let mut count = start.count;
        let mut at = start.at;
        'parts: for part in start.part..cut.end {
            if limit < way.cost {
                return Ok(());
            }
            let seat = search.plan.parts[part as usize];
            let width = search.plan.seats[seat as usize].width;
            let led = self.lead(search, way, count, seat, at)?;
            match led.lead {
                Lead::Nowhere => return Ok(()),
                Lead::One(next, to) => {
                    way = next;
                    count = Carry::of(to);
                }
                Lead::Several => {
                    let fork = Fork {
                        way,
                        count,
                        part,
                        at,
                    };
                    // A copy, so that it is stored only where a way parts.
                    let own = top;
                    return self.offer_fork(search, own, cut, fork, led.row, best);
                }
            }
            at += width;
        }
        offer_way(&mut best[count.count() as usize], way, cut, top.number);
        Ok(())
    }

    /// Where one way leads over the tree of a seat from the unit `place` on, and the row that tells it.
    #[cycle(rows)]
    #[inline(always)]
    fn lead(
        &mut self,
        search: &Search<'_>,
        way: Way,
        count: Carry,
        seat: u32,
        place: u16,
    ) -> Result<RowLead, AllocError>
        requires search { IsSearch search.now }
        requires place { IsSeatPlace search.now seat place }
        requires short { IsShort way }
        requires known { AreKnown search.now self.old }
        ensures known { OnOk result (AreKnown search.now self.new) }
        ensures grows { OnOk result (Grows self.old self.new) }
        ensures lead { IfOk result (λ l. LeadsOver search.now seat place way count l.lead) }
        ensures row { IfOk result (λ l. l.lead ≡ Several → IsRowOf search.now self.new seat place count l.row) }
    {
        let _few = count.count();
        let plan = search.plan;
        let width = plan.seats[seat as usize].width;
        match search.view.quiet(search.input, place, width) {
            Some(quiet) => {
                let tree = least_quiet(search.grammar, plan, seat, quiet, count);
                Ok(RowLead {
                    lead: lead_by_quiet(way, count, tree),
                    row: RowSpan { first: 0, count: 0 },
                })
            }
            None => {
                let span = self.row(search, seat, place, count)?;
                Ok(RowLead {
                    lead: lead_by_row(way, count, self.entries_of(span)),
                    row: span,
                })
            }
        }
    }

    /// Offers the trees with this cut on top whose ways go through a fork, by the row of the part at which it is.
    #[cycle(rows)]
    #[inline(never)]
    fn offer_fork(
        &mut self,
        search: &Search<'_>,
        top: Top,
        cut: &Cut,
        fork: Fork,
        row: RowSpan,
        best: &mut Choices,
    ) -> Result<(), AllocError>
        requires search { IsSearch search.now }
        requires top { IsTop search.now top cut.now }
        requires part { (cut.now.first ≤ fork.part) × (fork.part < cut.now.end) × (cut.now.end < 2 ^ 32) }
        requires ways { AreWaysTo search.now top cut.now fork.part fork.at (one_way fork.way fork.count) }
        requires row { IsRowOfPart search.now self.old top cut.now fork row }
        requires known { AreKnown search.now self.old }
        ensures known { OnOk result (AreKnown search.now self.new) }
        ensures grows { OnOk result (Grows self.old self.new) }
        ensures best { OnOk result (IsOffered search.now top cut.now best.old best.new) }
    {
        let _few = fork.count.count();
        let own = search.plan.parts[fork.part as usize];
        let entries = self.entries_of(row);
        let part = fork.part + 1;
        if part == cut.end {
            offer_entries(best, cut, top.number, fork.way, fork.count, entries);
            return Ok(());
        }
        let mut ways = [None; 5];
        join(&mut ways, fork.way, fork.count, entries);
        let at = fork.at + search.plan.seats[own as usize].width;
        self.offer_rest(search, top, cut, PartAt { part, at }, &ways, best)
    }

    /// Offers the trees with this cut on top that go these ways up to a part.
    #[cycle(rows)]
    #[inline(always)]
    fn offer_rest(
        &mut self,
        search: &Search<'_>,
        top: Top,
        cut: &Cut,
        next: PartAt,
        ways: &[Option<Way>; 5],
        best: &mut Choices,
    ) -> Result<(), AllocError>
        requires search { IsSearch search.now }
        requires top { IsTop search.now top cut.now }
        requires part { (cut.now.first ≤ next.part) × (next.part < cut.now.end) × (cut.now.end < 2 ^ 32) }
        requires ways { AreWaysTo search.now top cut.now next.part next.at (way_in ways.now) }
        requires known { AreKnown search.now self.old }
        ensures known { OnOk result (AreKnown search.now self.new) }
        ensures grows { OnOk result (Grows self.old self.new) }
        ensures best { OnOk result (IsOffered search.now top cut.now best.old best.new) }
    {
        let seat = search.plan.parts[next.part as usize];
        let width = search.plan.seats[seat as usize].width;
        let part = next.part + 1;
        let at = next.at + width;
        match search.view.quiet(search.input, next.at, width) {
            Some(quiet) => {
                let way = rest_of_several(search, ways, seat, quiet);
                self.offer_alone(search, top, cut, PartAt { part, at }, way, best)
            }
            None => {
                if part == cut.end {
                    return self.offer_several(search, top, cut, next, ways, best);
                }
                self.offer_over(search, top, cut, next, ways, best)
            }
        }
    }

    /// The same over a part that others come after, by the rows of its seat.
    #[cycle(rows)]
    #[inline(never)]
    fn offer_over(
        &mut self,
        search: &Search<'_>,
        top: Top,
        cut: &Cut,
        next: PartAt,
        ways: &[Option<Way>; 5],
        best: &mut Choices,
    ) -> Result<(), AllocError>
        requires search { IsSearch search.now }
        requires top { IsTop search.now top cut.now }
        requires part { (cut.now.first ≤ next.part) × (next.part + 1 < cut.now.end) × (cut.now.end < 2 ^ 32) }
        requires ways { AreWaysTo search.now top cut.now next.part next.at (way_in ways.now) }
        requires known { AreKnown search.now self.old }
        ensures known { OnOk result (AreKnown search.now self.new) }
        ensures grows { OnOk result (Grows self.old self.new) }
        ensures best { OnOk result (IsOffered search.now top cut.now best.old best.new) }
    {
        let seat = search.plan.parts[next.part as usize];
        let part = next.part + 1;
        let at = next.at + search.plan.seats[seat as usize].width;
        let mut over = [None; 5];
        self.over_rows(search, &mut over, ways, seat, next.at)?;
        self.offer_rest(search, top, cut, PartAt { part, at }, &over, best)
    }

    /// Offers the trees with this cut on top that go one way, out of which no chord is carried, up to a part, where there is one.
    #[cycle(rows)]
    #[inline(always)]
    fn offer_alone(
        &mut self,
        search: &Search<'_>,
        top: Top,
        cut: &Cut,
        next: PartAt,
        way: Option<Way>,
        best: &mut Choices,
    ) -> Result<(), AllocError>
        requires search { IsSearch search.now }
        requires top { IsTop search.now top cut.now }
        requires part { (cut.now.first ≤ next.part) × (next.part ≤ cut.now.end) }
        requires ways { AreWaysTo search.now top cut.now next.part next.at (way_to_none way) }
        requires known { AreKnown search.now self.old }
        ensures known { OnOk result (AreKnown search.now self.new) }
        ensures grows { OnOk result (Grows self.old self.new) }
        ensures best { OnOk result (IsOffered search.now top cut.now best.old best.new) }
    {
        let Some(way) = way else {
            return Ok(());
        };
        let start = Fork {
            way,
            count: Carry::none(),
            part: next.part,
            at: next.at,
        };
        self.offer_along(search, top, cut, start, u64::MAX, best)
    }

    /// Offers the trees with this cut on top that go these ways up to the last part.
    #[cycle(rows)]
    #[inline(always)]
    fn offer_several(
        &mut self,
        search: &Search<'_>,
        top: Top,
        cut: &Cut,
        last: PartAt,
        ways: &[Option<Way>; 5],
        best: &mut Choices,
    ) -> Result<(), AllocError>
        requires search { IsSearch search.now }
        requires top { IsTop search.now top cut.now }
        requires part { (cut.now.first ≤ last.part) × (last.part + 1 ≡ cut.now.end) }
        requires ways { AreWaysTo search.now top cut.now last.part last.at (way_in ways.now) }
        requires known { AreKnown search.now self.old }
        ensures known { OnOk result (AreKnown search.now self.new) }
        ensures grows { OnOk result (Grows self.old self.new) }
        ensures best { OnOk result (IsOffered search.now top cut.now best.old best.new) }
    {
        let own = search.plan.parts[last.part as usize];
        let number = self.state(search, own, last.at)?;
        'counts: for count in 0..5u8 {
            let Some(way) = ways[count as usize] else {
                continue;
            };
            let from = Carry::of(count);
            let span = self.row_of(search, number, own, last.at, from)?;
            offer_entries(best, cut, top.number, way, from, self.entries_of(span));
        }
        Ok(())
    }

    /// The ways with a tree of the seat after them, by its rows.
    #[cycle(rows)]
    #[inline(always)]
    fn over_rows(
        &mut self,
        search: &Search<'_>,
        next: &mut [Option<Way>; 5],
        ways: &[Option<Way>; 5],
        seat: u32,
        place: u16,
    ) -> Result<(), AllocError>
        requires search { IsSearch search.now }
        requires place { IsSeatPlace search.now seat place }
        requires none { (b : ℕ) → b < 5 → way_in next.old b ≡ None }
        requires short { AreShort (way_in ways.now) }
        requires known { AreKnown search.now self.old }
        ensures known { OnOk result (AreKnown search.now self.new) }
        ensures grows { OnOk result (Grows self.old self.new) }
        ensures ways { OnOk result (AreWaysOver search.now seat place (way_in ways.now) (way_in next.new)) }
    {
        let number = self.state(search, seat, place)?;
        'counts: for count in 0..5u8 {
            let Some(way) = ways[count as usize] else {
                continue;
            };
            let from = Carry::of(count);
            let span = self.row_of(search, number, seat, place, from)?;
            join(next, way, from, self.entries_of(span));
        }
        Ok(())
    }
}
