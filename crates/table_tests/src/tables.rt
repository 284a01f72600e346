ghost use Rattle.rhythm_base.specs.Readable.{IsReadable};

use crate::bars::{bar_of, chords_of, count_entries};
use crate::grammars::{
    GRACES, HALVES, TIES, TIES_EXCHANGED, TWO_WAYS, UNEQUAL, USUAL, WHOLE, read,
};
use least_cost::{BarTable, Steps, build_cell};
use rhythm_base::{Best, Grammar, Shape, Tag};
use std::alloc::{AllocError, Global};
use std::test::Fail;

/// What the steps of these builds are counted for.
#[derive(Clone, Copy)]
struct ByHand;

impl Tag for ByHand {}

/// A shape that a row demands.
#[derive(Clone, Copy)]
enum Pinned {
    Free,
    Leaf,
    Halves,
    FirstQuarters,
    LastEighths,
    Dotted,
}

/// An entry of a table: the numbers carried in and out, the cost, the rank and the rules.
type Filled = (u8, u8, u64, u8, &'static [u16]);

/// A bar of 4/4 of 1,920 ticks, and all the entries of its table.
struct Row {
    chords: &'static [(u64, u64)],
    before: u64,
    pin: Pinned,
    entries: &'static [Filled],
}

const OF_HALVES: &[Row] = &[
    // A chord in the very middle of a leaf goes to the left, a tick later to the right.
    Row {
        chords: &[(480, 1920)],
        before: 0,
        pin: Pinned::Free,
        entries: &[(0, 0, 960, 0, &[0, 1, 3])],
    },
    Row {
        chords: &[(481, 1920)],
        before: 0,
        pin: Pinned::Free,
        entries: &[(0, 0, 958, 0, &[0, 2, 1]), (1, 0, 958, 0, &[0, 4, 1])],
    },
    // No chord begins, and the one before goes on.
    Row {
        chords: &[],
        before: 1920,
        pin: Pinned::Free,
        entries: &[(0, 0, 0, 0, &[0, 3, 3]), (1, 0, 0, 0, &[0, 1, 3])],
    },
    // A leaf alone is demanded, and no rule is one.
    Row {
        chords: &[(480, 1920)],
        before: 0,
        pin: Pinned::Leaf,
        entries: &[],
    },
];

const OF_QUARTERS: &[Row] = &[
    // An onset is carried over the barline, and the chord goes on there.
    Row {
        chords: &[(1900, 1920)],
        before: 0,
        pin: Pinned::Free,
        entries: &[
            (0, 1, 45, 0, &[2]),
            (1, 1, 115, 0, &[3, 7, 9, 11, 6]),
            (2, 1, 210, 0, &[3, 7, 12, 17, 16, 11, 6]),
        ],
    },
    Row {
        chords: &[],
        before: 480,
        pin: Pinned::Free,
        entries: &[
            (0, 0, 5, 0, &[2]),
            (1, 0, 40, 0, &[3, 4, 6]),
            (2, 0, 170, 0, &[3, 7, 12, 17, 15, 11, 6]),
        ],
    },
    // Or it has ended before.
    Row {
        chords: &[],
        before: 0,
        pin: Pinned::Free,
        entries: &[
            (0, 0, 5, 0, &[2]),
            (1, 0, 75, 0, &[3, 7, 9, 11, 6]),
            (2, 0, 170, 0, &[3, 7, 12, 17, 16, 11, 6]),
        ],
    },
    // A bar after its last chord has ended, in its first half and in its second.
    Row {
        chords: &[],
        before: 700,
        pin: Pinned::Free,
        entries: &[
            (0, 0, 5, 0, &[2]),
            (1, 0, 40, 0, &[3, 4, 6]),
            (2, 0, 170, 0, &[3, 7, 12, 17, 15, 11, 6]),
        ],
    },
    Row {
        chords: &[],
        before: 1920,
        pin: Pinned::Free,
        entries: &[
            (0, 0, 10, 0, &[1]),
            (1, 0, 10, 0, &[0]),
            (2, 0, 170, 0, &[3, 7, 12, 17, 15, 10, 5]),
        ],
    },
    // Two numbers carried out: the rank is by the lists, whatever they cost.
    Row {
        chords: &[(1500, 1920)],
        before: 0,
        pin: Pinned::Free,
        entries: &[
            (0, 0, 190, 1, &[3, 6, 7, 11, 8]),
            (0, 1, 845, 0, &[2]),
            (1, 0, 225, 1, &[3, 7, 9, 11, 7, 11, 8]),
            (1, 1, 915, 0, &[3, 7, 9, 11, 6]),
            (2, 0, 320, 1, &[3, 7, 12, 17, 16, 11, 7, 11, 8]),
            (2, 1, 1010, 0, &[3, 7, 12, 17, 16, 11, 6]),
        ],
    },
    Row {
        chords: &[(1500, 1700)],
        before: 1920,
        pin: Pinned::Free,
        entries: &[
            (0, 0, 190, 1, &[3, 5, 7, 10, 8]),
            (0, 1, 850, 0, &[1]),
            (1, 0, 190, 1, &[3, 4, 7, 10, 8]),
            (1, 1, 850, 0, &[0]),
            (2, 0, 320, 1, &[3, 7, 12, 17, 15, 10, 7, 10, 8]),
            (2, 1, 1010, 0, &[3, 7, 12, 17, 15, 10, 5]),
        ],
    },
    // Chords near one another.
    Row {
        chords: &[(0, 1920)],
        before: 0,
        pin: Pinned::Free,
        entries: &[
            (0, 0, 10, 0, &[0]),
            (1, 0, 170, 0, &[3, 7, 12, 17, 15, 10, 5]),
        ],
    },
    Row {
        chords: &[(0, 1920), (21, 1920)],
        before: 0,
        pin: Pinned::Free,
        entries: &[(0, 0, 212, 0, &[3, 7, 12, 17, 15, 10, 5])],
    },
    Row {
        chords: &[(0, 960), (40, 960)],
        before: 0,
        pin: Pinned::Free,
        entries: &[(0, 0, 250, 0, &[3, 7, 12, 17, 15, 10, 6])],
    },
    // Four quarters, with and without a demanded shape.
    Row {
        chords: &[(0, 480), (480, 960), (960, 1440), (1440, 1920)],
        before: 0,
        pin: Pinned::Free,
        entries: &[
            (0, 0, 100, 0, &[3, 7, 8, 8, 7, 8, 8]),
            (1, 0, 200, 0, &[3, 7, 12, 17, 15, 8, 7, 8, 8]),
        ],
    },
    Row {
        chords: &[(0, 480), (480, 960), (960, 1440), (1440, 1920)],
        before: 0,
        pin: Pinned::Halves,
        entries: &[],
    },
    Row {
        chords: &[(0, 480), (480, 960), (960, 1440), (1440, 1920)],
        before: 0,
        pin: Pinned::LastEighths,
        entries: &[(0, 0, 150, 0, &[3, 7, 8, 8, 7, 8, 12, 13, 15])],
    },
    // Three eighths, with and without a demanded shape.
    Row {
        chords: &[(0, 720)],
        before: 0,
        pin: Pinned::Free,
        entries: &[
            (0, 0, 40, 0, &[3, 4, 6]),
            (1, 0, 170, 0, &[3, 7, 12, 17, 15, 10, 6]),
        ],
    },
    Row {
        chords: &[(0, 720)],
        before: 0,
        pin: Pinned::Dotted,
        entries: &[(0, 0, 120, 0, &[3, 7, 8, 12, 15, 16, 6])],
    },
];

const OF_WHOLE: &[Row] = &[
    // There is one leaf, and it has no room.
    Row {
        chords: &[(1700, 1800)],
        before: 0,
        pin: Pinned::Free,
        entries: &[(0, 1, 440, 0, &[1]), (1, 1, 440, 0, &[3])],
    },
];

const OF_TIES: &[Row] = &[
    // Of trees that cost the same, that of the earlier rule.
    Row {
        chords: &[(0, 1920)],
        before: 0,
        pin: Pinned::Free,
        entries: &[(0, 0, 0, 0, &[0, 2, 3])],
    },
];

const OF_TIES_EXCHANGED: &[Row] = &[Row {
    chords: &[(0, 1920)],
    before: 0,
    pin: Pinned::Free,
    entries: &[(0, 0, 0, 0, &[0, 4, 5, 5])],
}];

const OF_GRACES: &[Row] = &[
    // Two grace chords, and one chord too many.
    Row {
        chords: &[(400, 440), (440, 480), (480, 960)],
        before: 0,
        pin: Pinned::Free,
        entries: &[
            (0, 0, 245, 0, &[0, 2, 5, 2, 2]),
            (1, 0, 245, 0, &[0, 4, 5, 2, 2]),
            (3, 0, 250, 0, &[0, 5, 5, 2, 2]),
        ],
    },
    Row {
        chords: &[(400, 410), (420, 430), (440, 450), (460, 470), (480, 490)],
        before: 0,
        pin: Pinned::Free,
        entries: &[],
    },
];

const OF_UNEQUAL: &[Row] = &[
    // Unequal parts, and one late or early onset.
    Row {
        chords: &[(0, 1440), (1440, 1920)],
        before: 0,
        pin: Pinned::Free,
        entries: &[(0, 0, 0, 0, &[0, 1, 1])],
    },
    Row {
        chords: &[(0, 1440), (1460, 1920)],
        before: 0,
        pin: Pinned::Free,
        entries: &[(0, 0, 40, 0, &[0, 1, 1])],
    },
    Row {
        chords: &[(0, 1400), (1420, 1920)],
        before: 0,
        pin: Pinned::Free,
        entries: &[(0, 0, 120, 0, &[0, 1, 1])],
    },
];

const OF_TWO_WAYS: &[Row] = &[
    // One interval is asked for with two shapes: a cut below the equal cut, a leaf below the unequal one.
    Row {
        chords: &[(0, 1920)],
        before: 0,
        pin: Pinned::FirstQuarters,
        entries: &[(0, 0, 9, 0, &[0, 3, 6, 7, 5])],
    },
    Row {
        chords: &[(0, 1920)],
        before: 0,
        pin: Pinned::Free,
        entries: &[(0, 0, 3, 0, &[0, 4, 5])],
    },
];

/// Intervals without an onset in which a chord sounds, and others in which none does.
const QUIET: &[Row] = &[
    Row {
        chords: &[(0, 700), (1000, 1100)],
        before: 0,
        pin: Pinned::Free,
        entries: &[
            (0, 0, 155, 0, &[3, 4, 7, 9, 11]),
            (1, 0, 285, 0, &[3, 7, 12, 17, 15, 11, 7, 9, 11]),
        ],
    },
    Row {
        chords: &[(960, 1440)],
        before: 700,
        pin: Pinned::Free,
        entries: &[
            (0, 0, 40, 0, &[3, 5, 4]),
            (1, 0, 40, 0, &[3, 4, 4]),
            (2, 0, 170, 0, &[3, 7, 12, 17, 15, 11, 4]),
        ],
    },
    Row {
        chords: &[(240, 1200)],
        before: 1920,
        pin: Pinned::Free,
        entries: &[
            (0, 0, 120, 0, &[3, 7, 12, 15, 13, 10, 6]),
            (1, 0, 120, 0, &[3, 7, 12, 13, 13, 10, 6]),
            (2, 0, 170, 0, &[3, 7, 12, 17, 13, 10, 6]),
        ],
    },
];

/// Grammars by name, and rows by each.
const BY_GRAMMAR: [(&str, &[u8], &[Row]); 7] = [
    ("halves", HALVES, OF_HALVES),
    ("whole", WHOLE, OF_WHOLE),
    ("ties", TIES, OF_TIES),
    ("ties exchanged", TIES_EXCHANGED, OF_TIES_EXCHANGED),
    ("graces", GRACES, OF_GRACES),
    ("unequal", UNEQUAL, OF_UNEQUAL),
    ("two ways", TWO_WAYS, OF_TWO_WAYS),
];

fn two(alloc: Global, first: Shape, second: Shape) -> Result<Shape, AllocError> {
    let mut parts = Vec::new(alloc);
    parts.push(first)?;
    parts.push(second)?;
    Ok(Shape::cut(parts))
}

fn halves(alloc: Global) -> Result<Shape, AllocError> {
    two(alloc, Shape::leaf(), Shape::leaf())
}

fn shape_of(alloc: Global, pin: Pinned) -> Result<Option<Shape>, AllocError> {
    match pin {
        Pinned::Free => Ok(None),
        Pinned::Leaf => Ok(Some(Shape::leaf())),
        Pinned::Halves => Ok(Some(halves(alloc)?)),
        Pinned::FirstQuarters => Ok(Some(two(alloc, halves(alloc)?, Shape::leaf())?)),
        Pinned::LastEighths => {
            let last = two(alloc, Shape::leaf(), halves(alloc)?)?;
            Ok(Some(two(alloc, halves(alloc)?, last)?))
        }
        Pinned::Dotted => {
            let first = two(alloc, Shape::leaf(), halves(alloc)?)?;
            Ok(Some(two(alloc, first, Shape::leaf())?))
        }
    }
}

fn has_entry(table: &BarTable, entry: &Filled) -> bool {
    let from = entry.0;
    let to = entry.1;
    if from >= 5 || to >= 5 {
        return false;
    }
    let best = Some(Best {
        cost: entry.2,
        rank: entry.3,
    });
    table.matrix().get(from, to) == best && table.rules(from, to) == Some(entry.4)
}

/// Whether the table of the row's bar has the row's entries and no others.
fn has_entries(
    alloc: Global,
    grammar: &Grammar,
    row: &Row,
    builds: &mut Steps<ByHand>,
) -> Result<bool, Fail>
    requires { IsReadable grammar.now }
{
    let chords = chords_of(alloc, row.chords)?;
    let pin = shape_of(alloc, row.pin)?;
    let Some(bar) = bar_of(grammar, chords, row.before, pin) else {
        return Ok(false);
    };
    let table = build_cell(alloc, grammar, &bar, builds)?;
    if table.input().before() != row.before || count_entries(&table) != row.entries.len() {
        return Ok(false);
    }
    Ok(row.entries.iter().all(|entry| has_entry(&table, entry)))
}

/// The first row whose bar has another table by the grammar of the text.
fn first_wrong(alloc: Global, text: &[u8], rows: &[Row]) -> Result<Option<usize>, Fail> {
    let grammar = read(alloc, text)?;
    let mut builds = Steps::<ByHand>::zero();
    for (number, row) in rows.iter().enumerate() {
        if !has_entries(alloc, &grammar, row, &mut builds)? {
            return Ok(Some(number));
        }
    }
    Ok(None)
}

#[test]
fn tables_of_bars(rt: HostRuntime) -> Result<(), Fail> {
    for (name, grammar, rows) in &BY_GRAMMAR {
        let wrong = first_wrong(rt.alloc(), grammar, rows)?;
        assert_eq!(rt; wrong, None, "{name}");
    }
    Ok(())
}

#[test]
fn tables_of_bars_down_to_eighths(rt: HostRuntime) -> Result<(), Fail> {
    assert_eq!(rt; first_wrong(rt.alloc(), USUAL, OF_QUARTERS)?, None);
    Ok(())
}

#[test]
fn tables_of_bars_with_quiet_intervals(rt: HostRuntime) -> Result<(), Fail> {
    assert_eq!(rt; first_wrong(rt.alloc(), USUAL, QUIET)?, None);
    Ok(())
}
