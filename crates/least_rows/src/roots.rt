ghost use Rattle.bar_trees.specs.BarTrees.{AreBarTrees};
ghost use Rattle.least_rows.specs.Roots.{AreRootBests, AreRootRows, IsBestIn, IsRootBest, HasAskedRows, HasRootLists, WritesRootList, IsRootTree};
ghost use Rattle.least_rows.specs.Searches.{IsSearch};
ghost use Rattle.least_rows.specs.States.{AreKnown};
ghost use Rattle.least_rows.specs.Texts.{AreTexts};
ghost use Rattle.bar_trees.specs.WrittenLists.{list_number};
ghost use Rattle.std.specs.Prelude.{◌≡◌, ◌<◌, ℕ, IfOk, OnOk, None, length, slice_index_or};
ghost use Rattle.least_rows.specs.Places.{IsRoot};

use crate::entry::Entry;
use crate::rows::Rows;
use crate::search::Search;
use crate::texts::Texts;
use crate::tree_at::TreeAt;
use crate::write::{entries_of, place_in, write};
use bar_trees::{BarBests, BarTrees, WrittenLists};
use rhythm_base::{Best, Carry};
use std::alloc::AllocError;

/// Finds the least trees of a bar, whose root symbol has this seat.
pub fn trees_of(
    rows: &mut Rows,
    search: &Search<'_>,
    root: u32,
    texts: &mut Texts,
    trees: &mut BarTrees,
) -> Result<(), AllocError>
    requires search { IsSearch search.now }
    requires root { IsRoot search.now root }
    requires known { AreKnown search.now rows.old }
    ensures { OnOk result (AreBarTrees search.now.grammar.now search.now.input.now trees.new) }
{
    trees.lists.clear();
    find_bests(rows, search, root, [true; 5], &mut trees.bests)?;
    texts.clear(rows.entries.len())?;
    write_rows(rows, search, root, &trees.bests, texts, &mut trees.lists)
}

/// The costs and the ranks of the root's rows for the numbers carried in that are asked for, and none for the others.
#[inline(always)]
pub fn find_bests(
    rows: &mut Rows,
    search: &Search<'_>,
    root: u32,
    asked: [bool; 5],
    bests: &mut BarBests,
) -> Result<(), AllocError>
    requires search { IsSearch search.now }
    requires root { IsRoot search.now root }
    requires known { AreKnown search.now rows.old }
    ensures known { OnOk result (AreKnown search.now rows.new) }
    ensures long { OnOk result (length bests.new.rows ≡ 5) }
    ensures bests { OnOk result (HasAskedRows search.now asked bests.new) }
{
    *bests = BarBests {
        rows: [[None; 5]; 5],
    };
    'counts: for from in 0..5u8 {
        if !asked[from as usize] {
            continue;
        }
        let carried = Carry::of(from);
        let row = root_bests(rows, search, root, carried)?;
        bests.rows[from as usize] = row;
    }
    Ok(())
}

/// Writes the rule lists of the root's rows.
fn write_rows(
    rows: &mut Rows,
    search: &Search<'_>,
    root: u32,
    bests: &BarBests,
    texts: &mut Texts,
    lists: &mut WrittenLists,
) -> Result<(), AllocError>
    requires search { IsSearch search.now }
    requires root { IsRoot search.now root }
    requires long { length bests.now.rows ≡ 5 }
    requires bests { AreRootRows search.now.grammar.now search.now.input.now 5 bests.now.rows }
    requires known { AreKnown search.now rows.old }
    requires texts { AreTexts search.now lists.old.rules.items texts.old }
    requires written { HasRootLists search.now lists.old 0 }
    ensures { OnOk result (HasRootLists search.now lists.new 25) }
{
    'counts: for from in 0..5u8 {
        let row = bests.rows[from as usize];
        write_lists(rows, search, root, from, &row, texts, lists)?;
    }
    Ok(())
}

/// The costs and the ranks of the root's row for a number carried in.
#[inline(always)]
fn root_bests(
    rows: &mut Rows,
    search: &Search<'_>,
    root: u32,
    from: Carry,
) -> Result<[Option<Best>; 5], AllocError>
    requires search { IsSearch search.now }
    requires root { IsRoot search.now root }
    requires known { AreKnown search.now rows.old }
    ensures known { OnOk result (AreKnown search.now rows.new) }
    ensures bests { IfOk result (AreRootBests search.now.grammar.now search.now.input.now from) }
{
    let span = rows.row(search, root, 0, from)?;
    Ok(bests_in(entries_of(rows, span)))
}

/// The costs of the entries of a row, by the number carried out. Their places in it are their ranks.
fn bests_in(row: &[Entry]) -> [Option<Best>; 5]
    requires { length row.now < 256 }
    ensures long { length result ≡ 5 }
    ensures each { (b : ℕ) → b < 5 → IsBestIn row.now b (slice_index_or result b None) }
{
    [
        best_in(row, 0),
        best_in(row, 1),
        best_in(row, 2),
        best_in(row, 3),
        best_in(row, 4),
    ]
}

/// The cost of the entry for a number carried out. Its place in the row is its rank.
fn best_in(row: &[Entry], to: u8) -> Option<Best>
    requires { length row.now < 256 }
    ensures { IsBestIn row.now to result }
{
    match place_in(row, to) {
        None => None,
        Some(at) => Some(Best {
            cost: row[at].cost,
            rank: at as u8,
        }),
    }
}

/// Writes the rule lists of the root's row for a number carried in.
fn write_lists(
    rows: &mut Rows,
    search: &Search<'_>,
    root: u32,
    from: u8,
    bests: &[Option<Best>; 5],
    texts: &mut Texts,
    lists: &mut WrittenLists,
) -> Result<(), AllocError>
    requires search { IsSearch search.now }
    requires root { IsRoot search.now root }
    requires from { from < 5 }
    requires bests { AreRootBests search.now.grammar.now search.now.input.now from bests.now }
    requires known { AreKnown search.now rows.old }
    requires texts { AreTexts search.now lists.old.rules.items texts.old }
    requires written { HasRootLists search.now lists.old (list_number from 0) }
    ensures texts { OnOk result (AreTexts search.now lists.new.rules.items texts.new) }
    ensures known { OnOk result (AreKnown search.now rows.new) }
    ensures written { OnOk result (HasRootLists search.now lists.new (list_number from 5)) }
{
    'counts: for to in 0..5u8 {
        let tree = TreeAt {
            seat: root,
            place: 0,
            from,
            to,
        };
        write_list(
            rows,
            search,
            tree,
            bests[to as usize],
            texts,
            &mut lists.rules,
        )?;
        lists.end(from, to)?;
    }
    Ok(())
}

/// Writes the rule list of one of them, where it is there.
fn write_list(
    rows: &mut Rows,
    search: &Search<'_>,
    tree: TreeAt,
    best: Option<Best>,
    texts: &mut Texts,
    rules: &mut Vec<u16>,
) -> Result<(), AllocError>
    requires search { IsSearch search.now }
    requires root { IsRootTree search.now tree }
    requires best { IsRootBest search.now.grammar.now search.now.input.now tree.from tree.to best }
    requires known { AreKnown search.now rows.old }
    requires texts { AreTexts search.now rules.old.items texts.old }
    ensures known { OnOk result (AreKnown search.now rows.new) }
    ensures texts { OnOk result (AreTexts search.now rules.new.items texts.new) }
    ensures list { OnOk result (WritesRootList search.now tree rules.old.items rules.new.items) }
{
    let Some(_best) = best else {
        return Ok(());
    };
    write(rows, search, tree, texts, rules)
}
