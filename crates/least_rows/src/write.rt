ghost use Rattle.grammar_plan.specs.Plans.{between};
ghost use Rattle.least_rows.specs.Parts.{ArePartsOf, IsLeg, WritesParts};
ghost use Rattle.least_rows.specs.Searches.{IsSearch};
ghost use Rattle.least_rows.specs.States.{AreKnown};
ghost use Rattle.least_rows.specs.Texts.{AreTexts, WritesTree, IsTreePlace};
ghost use Rattle.grammar_plan.specs.Drafts.{IsLonger};
ghost use Rattle.std.specs.Prelude.{◌≡◌, ◌==◌, ◌+◌, ◌-◌, ◌≤◌, OnOk, length, position};
ghost use Rattle.least_rows.specs.Entries.{IsFoundIn};

use crate::entry::Entry;
use crate::parts::{Leg, Parts};
use crate::quiet_lists::write_quiet;
use crate::rows::Rows;
use crate::search::Search;
use crate::state::RowSpan;
use crate::texts::Texts;
use crate::tree_at::TreeAt;
use rhythm_base::Carry;
use std::alloc::{AllocError, Global};

/// The entries of a row.
pub fn entries_of(rows: &Rows, span: RowSpan) -> &[Entry]
    requires { span.first + span.count ≤ length rows.now.entries.items }
    ensures { result.now ≡ between rows.now.entries.items span.first (span.first + span.count) }
{
    let first = span.first as usize;
    &rows.entries[first..first + span.count as usize]
}

/// Where in a row the entry for a number carried out stands.
pub fn place_in(row: &[Entry], to: u8) -> Option<usize>
    ensures { result ≡ position (λ e. e.to == to) row.now }
{
    row.iter().position(|entry| entry.to == to)
}

/// An entry of a row, and its place there.
#[derive(Clone, Copy)]
struct Found {
    place: usize,
    entry: Entry,
}

/// The entry of a row for a number carried out.
fn entry_in(row: &[Entry], to: u8) -> Option<Found>
    ensures { IsFoundIn row.now to result }
{
    let place = place_in(row, to)?;
    Some(Found {
        place,
        entry: row[place],
    })
}

/// Writes the rules of a least tree. Those of a tree that was written before are copied.
#[cycle(lists)]
#[inline(always)]
pub fn write(
    rows: &mut Rows,
    search: &Search<'_>,
    tree: TreeAt,
    texts: &mut Texts,
    list: &mut Vec<u16>,
) -> Result<(), AllocError>
    requires search { IsSearch search.now }
    requires tree { IsTreePlace search.now tree }
    requires known { AreKnown search.now rows.old }
    requires texts { AreTexts search.now list.old.items texts.old }
    ensures known { OnOk result (AreKnown search.now rows.new) }
    ensures texts { OnOk result (AreTexts search.now list.new.items texts.new) }
    ensures grows { OnOk result (IsLonger list.old.items list.new.items) }
    ensures list { OnOk result (WritesTree search.now tree list.old.items list.new.items) }
{
    let plan = search.plan;
    let width = plan.seats[tree.seat as usize].width;
    if let Some(quiet) = search.view.quiet(search.input, tree.place, width) {
        return write_quiet(
            search.grammar,
            plan,
            quiet,
            tree.seat,
            Carry::of(tree.from),
            list,
        );
    }
    let from = Carry::of(tree.from);
    let span = rows.row(search, tree.seat, tree.place, from)?;
    let Some(found) = entry_in(entries_of(rows, span), tree.to) else {
        return Ok(());
    };
    let entry = found.entry;
    let Some(number) = entry.cut else {
        list.push(entry.rule)?;
        return Ok(());
    };
    let slot = span.first as usize + found.place;
    if let Some(text) = texts.find(slot, tree) {
        return list.extend_from_within(text.first as usize..text.end as usize);
    }
    let first = list.as_slice().len();
    list.push(entry.rule)?;
    let cut = &plan.cuts[number as usize];
    let parts = Parts {
        first: cut.first,
        end: cut.end,
        width,
    };
    let leg = Leg {
        place: tree.place,
        from: tree.from,
        way: entry.way,
        to: entry.to,
    };
    write_parts(rows, search, parts, leg, texts, list)?;
    let end = list.as_slice().len();
    texts.keep(slot, tree, first, end)?;
    Ok(())
}

/// Writes the rules of the least trees of the parts of a cut along a way, from left to right.
#[cycle(lists)]
#[inline(never)]
fn write_parts(
    rows: &mut Rows,
    search: &Search<'_>,
    parts: Parts,
    leg: Leg,
    texts: &mut Texts,
    list: &mut Vec<u16>,
) -> Result<(), AllocError>
    requires search { IsSearch search.now }
    requires parts { ArePartsOf search.now.plan.now parts }
    requires few { parts.end - parts.first ≤ 16 }
    requires leg { IsLeg search.now parts leg }
    requires known { AreKnown search.now rows.old }
    requires texts { AreTexts search.now list.old.items texts.old }
    ensures known { OnOk result (AreKnown search.now rows.new) }
    ensures texts { OnOk result (AreTexts search.now list.new.items texts.new) }
    ensures grows { OnOk result (IsLonger list.old.items list.new.items) }
    ensures list { OnOk result (WritesParts search.now parts leg list.old.items list.new.items) }
{
    let mut place = leg.place;
    let mut from = leg.from;
    'parts: for part in parts.first..parts.end {
        let seat = search.plan.parts[part as usize];
        let to = leg.carried_after(parts.end - 1 - part);
        let tree = TreeAt {
            seat,
            place,
            from,
            to,
        };
        write(rows, search, tree, texts, list)?;
        place += search.plan.seats[seat as usize].width;
        from = to;
    }
    Ok(())
}
