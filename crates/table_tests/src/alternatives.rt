ghost use Rattle.bar_alternatives.specs.BestTrees.{AreSmall};
ghost use Rattle.rhythm_base.specs.Readable.{IsReadable};
ghost use Rattle.std.specs.Prelude.{◌≡◌, ◌<◌, ◌^◌, ℕ, IsTrue, Some};

use crate::bars::{bar_of, chords_of};
use crate::grammars::{TIES, TWO_WAYS, USUAL, read};
use bar_alternatives::{Alternative, alternatives};
use rhythm_base::{Grammar, Shape};
use std::alloc::Global;
use std::test::Fail;

/// The least costs of the bars on one side, by the number of chords carried.
type Costs = [Option<u64>; 5];

/// Nothing is carried, and there are no other bars.
const ALONE: Costs = [Some(0), None, None, None, None];

/// A bar of 4/4 of 1,920 ticks, and its best trees: their totals and rules.
struct Row {
    chords: &'static [(u64, u64)],
    pin: Option<&'static str>,
    before: Costs,
    after: Costs,
    count: u32,
    trees: &'static [(u64, &'static [u16])],
}

const OF_QUARTERS: &[Row] = &[
    // Four quarters, and the last of them in two eighths.
    Row {
        chords: &[(0, 480), (480, 960), (960, 1440), (1440, 1920)],
        pin: None,
        before: ALONE,
        after: ALONE,
        count: 2,
        trees: &[
            (100, &[3, 7, 8, 8, 7, 8, 8]),
            (150, &[3, 7, 8, 8, 7, 8, 12, 13, 15]),
        ],
    },
    // A pin is lifted, whatever it demands.
    Row {
        chords: &[(0, 480), (480, 960), (960, 1440), (1440, 1920)],
        pin: Some("2(. .)"),
        before: ALONE,
        after: ALONE,
        count: 1,
        trees: &[(100, &[3, 7, 8, 8, 7, 8, 8])],
    },
    // Of equal totals the lower list comes first.
    Row {
        chords: &[(0, 1920)],
        pin: None,
        before: ALONE,
        after: ALONE,
        count: 5,
        trees: &[
            (10, &[0]),
            (40, &[3, 4, 5]),
            (70, &[3, 4, 7, 10, 10]),
            (70, &[3, 7, 8, 10, 5]),
            (100, &[3, 7, 8, 10, 7, 10, 10]),
        ],
    },
    // What lies around the bar counts.
    Row {
        chords: &[(1500, 1920)],
        pin: None,
        before: [None, None, Some(7), None, None],
        after: [Some(100), Some(5), None, None, None],
        count: 3,
        trees: &[
            (427, &[3, 7, 12, 17, 16, 11, 7, 11, 8]),
            (477, &[3, 7, 12, 17, 16, 11, 7, 11, 12, 13, 15]),
            (477, &[3, 7, 12, 17, 16, 11, 7, 12, 16, 16, 8]),
        ],
    },
    // No tree fits with such counts.
    Row {
        chords: &[(0, 1920)],
        pin: None,
        before: ALONE,
        after: [None, None, None, None, Some(0)],
        count: 16,
        trees: &[],
    },
];

// There are no more trees.
const OF_TIES: &[Row] = &[Row {
    chords: &[(0, 1920)],
    pin: None,
    before: ALONE,
    after: ALONE,
    count: 16,
    trees: &[(0, &[0, 2, 3]), (0, &[1, 4, 5, 5])],
}];

// Equal and unequal cuts of one interval.
const OF_TWO_WAYS: &[Row] = &[Row {
    chords: &[(0, 1920)],
    pin: None,
    before: ALONE,
    after: ALONE,
    count: 5,
    trees: &[
        (3, &[0, 4, 5]),
        (8, &[0, 4, 3, 7, 7]),
        (9, &[0, 3, 6, 7, 5]),
        (10, &[1, 2, 4, 5, 5]),
        (14, &[0, 3, 6, 7, 3, 7, 7]),
    ],
}];

/// Grammars by name, and rows by each.
const BY_GRAMMAR: [(&str, &[u8], &[Row]); 3] = [
    ("usual", USUAL, OF_QUARTERS),
    ("ties", TIES, OF_TIES),
    ("two ways", TWO_WAYS, OF_TWO_WAYS),
];

fn is_small(cost: Option<u64>) -> bool
    ensures { IsTrue result → (c : ℕ) → cost ≡ Some c → c < 2 ^ 60 }
{
    match cost {
        Some(cost) => cost < 1 << 60,
        None => true,
    }
}

/// Whether the costs can be added up.
fn are_small(costs: &Costs) -> bool
    ensures { IsTrue result → AreSmall costs.now }
{
    for cost in costs {
        if !is_small(*cost) {
            return false;
        }
    }
    true
}

fn is_tree(alloc: Global, one: &Alternative, wanted: &(u64, &[u16])) -> Result<bool, Fail> {
    Ok(one.total == wanted.0 && one.tree.sequence(alloc)?.as_slice() == wanted.1)
}

/// Whether the best trees of the row's bar are those of the row.
fn has_trees(alloc: Global, grammar: &Grammar, row: &Row) -> Result<bool, Fail>
    requires { IsReadable grammar.now }
{
    let chords = chords_of(alloc, row.chords)?;
    let pin = match row.pin {
        Some(text) => Shape::parse(alloc, text).ok(),
        None => None,
    };
    let Some(bar) = bar_of(grammar, chords, 0, pin) else {
        return Ok(false);
    };
    if !are_small(&row.before) || !are_small(&row.after) {
        return Ok(false);
    }
    let list = alternatives(alloc, grammar, &bar, &row.before, &row.after, row.count)?;
    if list.len() != row.trees.len() {
        return Ok(false);
    }
    for (one, wanted) in list.iter().zip(row.trees) {
        if !is_tree(alloc, one, wanted)? {
            return Ok(false);
        }
    }
    Ok(true)
}

/// The first row whose bar has other trees by the grammar of the text.
fn first_wrong(alloc: Global, text: &[u8], rows: &[Row]) -> Result<Option<usize>, Fail> {
    let grammar = read(alloc, text)?;
    for (number, row) in rows.iter().enumerate() {
        if !has_trees(alloc, &grammar, row)? {
            return Ok(Some(number));
        }
    }
    Ok(None)
}

#[test]
fn best_trees_of_bars(rt: HostRuntime) -> Result<(), Fail> {
    for (name, grammar, rows) in &BY_GRAMMAR {
        let wrong = first_wrong(rt.alloc(), grammar, rows)?;
        assert_eq!(rt; wrong, None, "{name}");
    }
    Ok(())
}
