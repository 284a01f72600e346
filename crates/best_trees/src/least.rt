ghost use Rattle.best_trees.specs.BarTrees.{AreFirstsWritten, ArePinnedTrees, IsWritten};
ghost use Rattle.best_trees.specs.Grids.{first_keys};
ghost use Rattle.bar_trees.specs.WrittenLists.{list_number};
ghost use Rattle.rhythm_base.specs.Ranked.{count_under, five, is_under, ranked, table_of};
ghost use Rattle.row_laws.specs.Grounds.{IsReady};
ghost use Rattle.std.specs.Prelude.{◌≡◌, ◌<◌, if◌then◌else◌, IfOk, OnOk, option_map};

use crate::bar::best_trees;
use crate::grid::Grid;
use crate::ranking::Entry;
use bar_trees::{BarBests, BarTrees, WrittenLists};
use rhythm_base::{BarInput, Best, Carry, Grammar};
use std::alloc::{AllocError, Global};
use std::cmp::Ordering;

/// The least trees of a bar, with a pin or without.
pub fn least_trees(
    alloc: Global,
    grammar: &Grammar,
    input: &BarInput,
) -> Result<BarTrees, AllocError>
    requires ready { IsReady grammar.now input.now }
    ensures { IfOk result (ArePinnedTrees grammar.now input.now) }
{
    let grid = best_trees(alloc, grammar, input, input.pin(), 1)?;
    let lists = lists_of(alloc, &grid)?;
    Ok(BarTrees {
        bests: BarBests {
            rows: bests_of(&grid),
        },
        lists,
    })
}

/// The first tree for these counts.
fn first(grid: &Grid, from: Carry, to: Carry) -> Option<&Entry>
    ensures { option_map (λ e. e.now) result ≡ first_keys grid.now from to }
{
    grid.at(from, to).entries().first()
}

/// 1 where the tree is there and its list is lower, and else 0.
fn lower(entry: Option<&Entry>, rules: &[u16]) -> u8
    ensures is { result ≡ (if is_under (option_map (λ e. e.now) entry.entry) rules.now then 1 else 0) }
    ensures small { result < 2 }
{
    match entry {
        None => 0,
        Some(entry) => match entry.rules().cmp(rules) {
            Ordering::Less => 1,
            Ordering::Equal | Ordering::Greater => 0,
        },
    }
}

/// How many first trees of the row have a lower list.
fn rank(grid: &Grid, from: Carry, rules: &[u16]) -> u8
    ensures { result ≡ count_under (first_keys grid.now from) rules.now 5 }
{
    lower(first(grid, from, Carry::of(4)), rules)
        + (lower(first(grid, from, Carry::of(3)), rules)
            + (lower(first(grid, from, Carry::of(2)), rules)
                + (lower(first(grid, from, Carry::of(1)), rules)
                    + lower(first(grid, from, Carry::of(0)), rules))))
}

/// What the first tree for these counts costs, and its place in its row.
fn best(grid: &Grid, from: Carry, to: Carry) -> Option<Best>
    ensures { result ≡ ranked (first_keys grid.now from) (first_keys grid.now from to) }
{
    match first(grid, from, to) {
        None => None,
        Some(entry) => Some(Best {
            cost: entry.cost(),
            rank: rank(grid, from, entry.rules()),
        }),
    }
}

/// The same for each number carried out.
fn bests_from(grid: &Grid, from: Carry) -> [Option<Best>; 5]
    ensures { result ≡ five (λ b. ranked (first_keys grid.now from) (first_keys grid.now from b)) }
{
    [
        best(grid, from, Carry::of(0)),
        best(grid, from, Carry::of(1)),
        best(grid, from, Carry::of(2)),
        best(grid, from, Carry::of(3)),
        best(grid, from, Carry::of(4)),
    ]
}

fn bests_of(grid: &Grid) -> [[Option<Best>; 5]; 5]
    ensures { result ≡ table_of (first_keys grid.now) }
{
    [
        bests_from(grid, Carry::of(0)),
        bests_from(grid, Carry::of(1)),
        bests_from(grid, Carry::of(2)),
        bests_from(grid, Carry::of(3)),
        bests_from(grid, Carry::of(4)),
    ]
}

/// Writes the rule list of the first tree for these counts, where it is there, after what stands in `rules`.
fn write_list(grid: &Grid, from: Carry, to: Carry, rules: &mut Vec<u16>) -> Result<(), AllocError>
    ensures { OnOk result (IsWritten (first_keys grid.now from to) rules.old.items rules.new.items) }
{
    match first(grid, from, to) {
        None => Ok(()),
        Some(entry) => rules.extend_from_slice(entry.rules()),
    }
}

/// Writes the rule lists of the first trees for a number carried in.
fn write_row(grid: &Grid, from: Carry, written: &mut WrittenLists) -> Result<(), AllocError>
    requires written { AreFirstsWritten grid.now written.old (list_number from 0) }
    ensures { OnOk result (AreFirstsWritten grid.now written.new (list_number from 5)) }
{
    'counts: for number in 0..5u8 {
        let to = Carry::of(number);
        write_list(grid, from, to, &mut written.rules)?;
        written.end(from.count(), to.count())?;
    }
    Ok(())
}

/// The rule lists of the first trees.
fn lists_of(alloc: Global, grid: &Grid) -> Result<WrittenLists, AllocError>
    ensures { IfOk result (λ x. AreFirstsWritten grid.now x 25) }
{
    let mut written = WrittenLists::new(alloc);
    'counts: for number in 0..5u8 {
        write_row(grid, Carry::of(number), &mut written)?;
    }
    Ok(written)
}
