ghost use Rattle.grammar_plan.specs.Frames.{IsFrame};
ghost use Rattle.grammar_plan.specs.Plans.{IsSeat, between, pair_of};
ghost use Rattle.grammar_plan.specs.QuietRows.{
  AreAllMarked,
  AreAllQuiet,
  AreCheapRows,
  AreQuietRows,
  AreRowsUpTo,
  IsQuietRow,
  added,
  cut_row,
  cut_tree,
  entry,
  leaf_row,
  leaf_tree,
  nearer_tree,
  others_cost,
};
ghost use Rattle.rhythm_base.specs.Readable.{IsReadable};
ghost use Rattle.row_laws.specs.QuietTrees.{sounds_so};
ghost use Rattle.std.specs.Prelude.{◌≡◌, ◌+◌, ◌*◌, ◌^◌, ◌<◌, ◌≤◌, [], All, ℕ, IfOk, IfSome, None, length, slice_get, slice_index_or, Some};

use crate::cut::Cut;
use crate::leaf_rule::LeafRule;
use crate::leaf_rules::place_of_leaf;
use crate::plan::Plan;
use crate::quiet_tree::QuietTree;
use crate::seat::Seat;
use rhythm_base::{Carry, Grammar};
use row_laws::Quiet;
use std::alloc::{AllocError, Global};

/// The least trees of one seat, by the number of chords carried in.
type Row = [Option<QuietTree>; 5];

/// By seat: the least trees over the intervals that are quiet so.
pub fn quiet_trees(
    alloc: Global,
    grammar: &Grammar,
    plan: &Plan,
    quiet: Quiet,
) -> Result<Vec<Row>, AllocError>
    requires readable { IsReadable grammar.now }
    requires frame { IsFrame grammar.now plan.now }
    ensures long { IfOk result (λ rows. length rows.items ≡ length plan.now.seats.items) }
    ensures least { IfOk result (λ rows. AreAllQuiet grammar.now plan.now quiet rows.items) }
{
    let widths = widths_of(alloc, plan, grammar.resolution)?;
    let mut rows = no_rows(alloc, plan.seats.len())?;
    'widths: for width in 1..grammar.resolution + 1 {
        if widths[width as usize] {
            fill_width(grammar, plan, quiet, width, &mut rows);
        }
    }
    Ok(rows)
}

/// By width: whether a seat has it.
fn widths_of(alloc: Global, plan: &Plan, widest: u16) -> Result<Vec<bool>, AllocError>
    ensures long { IfOk result (λ widths. length widths.items ≡ widest + 1) }
    ensures all { IfOk result (λ widths. AreAllMarked plan.now widths.items) }
{
    let mut widths = vec![in alloc; false; widest as usize + 1]?;
    'seats: for number in 0..plan.seats.len() {
        let width = plan.seats[number].width as usize;
        if width < widths.len() {
            widths[width] = true;
        }
    }
    Ok(widths)
}

/// Rows without trees.
fn no_rows(alloc: Global, count: usize) -> Result<Vec<Row>, AllocError>
    ensures long { IfOk result (λ rows. length rows.items ≡ count) }
    ensures none { IfOk result (λ rows. (n from : ℕ) → entry rows.items n from ≡ None) }
{
    let mut rows = Vec::new(alloc);
    'rows: for _number in 0..count {
        rows.push([None; 5])?;
    }
    Ok(rows)
}

/// The rows of the seats of this width, where those of narrower ones stand.
fn fill_width(grammar: &Grammar, plan: &Plan, quiet: Quiet, width: u16, rows: &mut Vec<Row>)
    requires readable { IsReadable grammar.now }
    requires frame { IsFrame grammar.now plan.now }
    requires narrower { AreQuietRows grammar.now plan.now quiet rows.old.items width 0 }
    ensures { AreRowsUpTo grammar.now plan.now quiet rows.new.items width }
{
    'seats: for number in 0..plan.seats.len() {
        let seat = plan.seats[number];
        if seat.width == width {
            rows[number] = quiet_row(grammar, plan, quiet, seat, rows);
        }
    }
}

/// The row of a seat, where those of narrower ones stand.
fn quiet_row(grammar: &Grammar, plan: &Plan, quiet: Quiet, seat: Seat, rows: &[Row]) -> Row
    requires readable { IsReadable grammar.now }
    requires frame { IsFrame grammar.now plan.now }
    requires seat { IsSeat grammar.now plan.now seat }
    requires narrower { (m : ℕ) × AreQuietRows grammar.now plan.now quiet rows.now seat.width m }
    ensures long { length result ≡ 5 }
    ensures least { IsQuietRow grammar.now plan.now quiet (pair_of seat) result }
{
    let mut row = leaf_row(&plan.leaves[seat.symbol as usize], sounds_so(quiet));
    'cuts: for number in seat.first..seat.end {
        let cut = plan.cuts[number as usize];
        row = cut_row(&row, cut, number, parts_of(plan, cut), rows);
    }
    row
}

/// The seats of the parts of a cut.
fn parts_of(plan: &Plan, cut: Cut) -> &[u32]
    requires order { cut.first ≤ cut.end }
    requires within { cut.end ≤ length plan.now.parts.items }
    ensures parts { result.now ≡ between plan.now.parts.items cut.first cut.end }
    ensures few { length result.now < 2 ^ 32 }
{
    &plan.parts[cut.first as usize..cut.end as usize]
}

fn sounds_so(quiet: Quiet) -> bool
    ensures { result ≡ sounds_so quiet }
{
    match quiet {
        Quiet::Sounding => true,
        Quiet::Silent => false,
    }
}

/// The trees of leaves alone.
fn leaf_row(rules: &[Option<LeafRule>; 7], sounds: bool) -> Row
    ensures { result ≡ leaf_row rules.now sounds }
{
    [
        leaf_tree(rules[place_of_leaf(Carry::of(0), sounds)]),
        leaf_tree(rules[place_of_leaf(Carry::of(1), sounds)]),
        leaf_tree(rules[place_of_leaf(Carry::of(2), sounds)]),
        leaf_tree(rules[place_of_leaf(Carry::of(3), sounds)]),
        leaf_tree(rules[place_of_leaf(Carry::of(4), sounds)]),
    ]
}

fn leaf_tree(rule: Option<LeafRule>) -> Option<QuietTree>
    ensures { result ≡ leaf_tree rule }
{
    match rule {
        Some(leaf) => Some(QuietTree {
            cost: leaf.weight as u64,
            rule: leaf.rule,
            cut: None,
        }),
        None => None,
    }
}

/// The row with the cut of this number, where its trees are nearer. The parts are those of the cut.
fn cut_row(row: &Row, cut: Cut, number: u32, parts: &[u32], rows: &[Row]) -> Row
    requires parts { All (λ n. n < length rows.now) parts.now }
    requires few { length parts.now < 2 ^ 32 }
    requires cheap { AreCheapRows rows.now }
    ensures { result ≡ cut_row row.now cut number parts.now rows.now }
{
    match parts {
        [first, others @ ..] => {
            let first = &rows[*first as usize];
            let others = others_cost(others, rows);
            [
                nearer(row[0], cut_tree(cut, number, first[0], others)),
                nearer(row[1], cut_tree(cut, number, first[1], others)),
                nearer(row[2], cut_tree(cut, number, first[2], others)),
                nearer(row[3], cut_tree(cut, number, first[3], others)),
                nearer(row[4], cut_tree(cut, number, first[4], others)),
            ]
        }
        [] => [row[0], row[1], row[2], row[3], row[4]],
    }
}

/// What trees side by side cost, none where one of them has none.
fn others_cost(parts: &[u32], rows: &[Row]) -> Option<u64>
    requires parts { All (λ n. n < length rows.now) parts.now }
    requires few { length parts.now < 2 ^ 32 }
    requires cheap { AreCheapRows rows.now }
    ensures cost { result ≡ others_cost rows.now parts.now }
    ensures low { IfSome result (λ cost. cost ≤ 3000000000 * 4294967296) }
{
    let mut total = 0u64;
    'parts: for part in parts {
        match rows[*part as usize][0] {
            Some(tree) => total += tree.cost,
            None => return None,
        }
    }
    Some(total)
}

/// The cut on top of the trees of its parts.
fn cut_tree(
    cut: Cut,
    number: u32,
    first: Option<QuietTree>,
    others: Option<u64>,
) -> Option<QuietTree>
    requires first { IfSome first (λ t. t.cost ≤ 3000000000) }
    requires others { IfSome others (λ cost. cost ≤ 3000000000 * 4294967296) }
    ensures { result ≡ cut_tree cut number (added first others) }
{
    match (first, others) {
        (Some(first), Some(others)) => Some(QuietTree {
            cost: cut.weight as u64 + (first.cost + others),
            rule: cut.rule,
            cut: Some(number),
        }),
        (_, _) => None,
    }
}

/// The second tree where it costs less, or the same and has a lower rule on top.
fn nearer(first: Option<QuietTree>, second: Option<QuietTree>) -> Option<QuietTree>
    ensures { result ≡ nearer_tree first second }
{
    match (first, second) {
        (Some(kept), Some(new)) => {
            if new.cost < kept.cost || (new.cost == kept.cost && new.rule < kept.rule) {
                Some(new)
            } else {
                Some(kept)
            }
        }
        (Some(kept), None) => Some(kept),
        (None, _) => second,
    }
}
