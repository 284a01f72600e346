ghost use Rattle.std.specs.Prelude.{◌≡◌, ◌*◌, ◌+◌, ◌<◌, ◌≤◌, All, IfOk, map, sum};
ghost use Rattle.durations.specs.Joined.{IsTimedLeaf};

use durations::Recip::{Breve, Long, Of};
use durations::{Recip, Timed, Value, Written, notate, values_of};
use rhythm_base::SoundKind;
use rhythm_base::SoundKind::{Begin, Rest, Short, Tie};
use std::alloc::{AllocError, Global};
use std::test::Fail;

/// A value and its number of dots.
type Dotted = (Recip, u8);

/// Lengths, each as a fraction of a whole note, and their values.
const LENGTHS: [(u64, u64, &[Dotted]); 30] = [
    (1, 4, &[(Of(4), 0)]),
    (1, 1, &[(Of(1), 0)]),
    (1, 960, &[(Of(960), 0)]),
    (1, 61_440, &[(Of(61_440), 0)]),
    (3, 8, &[(Of(4), 1)]),
    (3, 2, &[(Of(1), 1)]),
    (7, 16, &[(Of(4), 2)]),
    (7, 4, &[(Of(1), 2)]),
    (2, 1, &[(Breve, 0)]),
    (3, 1, &[(Breve, 1)]),
    (4, 1, &[(Long, 0)]),
    // The same lengths, not in lowest terms.
    (8, 32, &[(Of(4), 0)]),
    (21_504, 61_440, &[(Of(5), 2)]),
    (12, 3, &[(Long, 0)]),
    // Lengths that are no single value.
    (5, 4, &[(Of(1), 0), (Of(4), 0)]),
    (5, 16, &[(Of(4), 0), (Of(16), 0)]),
    (10, 12, &[(Of(3), 0), (Of(2), 0)]),
    (5, 3, &[(Of(3), 0), (Of(3), 0), (Of(1), 0)]),
    (2, 3, &[(Of(3), 0), (Of(3), 0)]),
    (7, 2, &[(Breve, 0), (Of(1), 1)]),
    (7, 3, &[(Of(3), 0), (Breve, 0)]),
    (6, 1, &[(Long, 0), (Breve, 0)]),
    (7, 1, &[(Long, 0), (Breve, 1)]),
    (9, 8, &[(Of(1), 0), (Of(8), 0)]),
    (11, 8, &[(Of(1), 0), (Of(4), 1)]),
    (13, 8, &[(Of(1), 0), (Of(2), 0), (Of(8), 0)]),
    (15, 16, &[(Of(2), 0), (Of(4), 2)]),
    (31, 4, &[(Long, 0), (Breve, 0), (Of(1), 2)]),
    (63, 64, &[(Of(2), 0), (Of(4), 0), (Of(8), 0), (Of(16), 2)]),
    (
        61_439,
        61_440,
        &[
            (Of(15), 0),
            (Of(15), 0),
            (Of(5), 0),
            (Of(5), 0),
            (Of(5), 0),
            (Of(5), 0),
            (Of(16), 0),
            (Of(256), 0),
            (Of(4096), 0),
        ],
    ),
];

/// The values of a length, and none of a length that has none.
fn notated(alloc: Global, len: u64, whole: u64) -> Result<Vec<Value>, AllocError> {
    if 0 < len && 0 < whole && whole <= 61_440 && len <= 64 * whole {
        notate(alloc, len, whole)
    } else {
        Ok(Vec::new(alloc))
    }
}

#[test]
fn lengths(rt: HostRuntime) -> Result<(), Fail> {
    for (len, whole, wanted) in LENGTHS {
        let values = notated(rt.alloc(), len, whole)?;
        let found = values.iter().map(|value| (value.recip, value.dots));
        assert!(rt; found.eq(wanted.iter().copied()), "{len}/{whole}");
    }
    let longest = notated(rt.alloc(), 3_932_160, 61_440)?;
    assert_eq!(rt; longest.len(), 16);
    Ok(())
}

/// A leaf: its length and how it sounds.
type Leaf = (u64, SoundKind);

/// A written value: its leaf, its place in the bar, its value and its number of dots.
type Placed = (u32, u64, Recip, u8);

/// What the leaves of a bar show, how many parts a whole note has, the leaves and what is written.
const BARS: [(&str, u64, &[Leaf], &[Placed]); 23] = [
    ("no leaf", 4, &[], &[]),
    (
        "a tie of half the length is a dot",
        32,
        &[(8, Begin), (4, Tie), (4, Rest), (16, Rest)],
        &[(0, 0, Of(4), 1), (2, 12, Of(8), 0), (3, 16, Of(2), 0)],
    ),
    (
        "then a tie of a quarter is a second dot",
        8,
        &[(4, Begin), (2, Tie), (1, Tie), (1, Begin)],
        &[(0, 0, Of(2), 2), (3, 7, Of(8), 0)],
    ),
    (
        "a later leaf takes a dot",
        8,
        &[(4, Begin), (2, Begin), (1, Tie), (1, Rest)],
        &[(0, 0, Of(2), 0), (1, 4, Of(4), 1), (3, 7, Of(8), 0)],
    ),
    (
        "a tie at the start of a bar",
        8,
        &[(4, Tie), (2, Tie), (2, Begin)],
        &[(0, 0, Of(2), 1), (2, 6, Of(4), 0)],
    ),
    (
        "a half at the end of a bar is no dotted half ..",
        8,
        &[(4, Rest), (4, Begin)],
        &[(0, 0, Of(2), 0), (1, 4, Of(2), 0)],
    ),
    (
        ".. with the tie after the barline",
        8,
        &[(2, Tie), (6, Rest)],
        &[(0, 0, Of(4), 0), (1, 2, Of(2), 1)],
    ),
    (
        "the third leaf is half of the second, and begins",
        8,
        &[(4, Begin), (2, Tie), (1, Begin), (1, Tie)],
        &[(0, 0, Of(2), 1), (2, 6, Of(8), 0), (3, 7, Of(8), 0)],
    ),
    (
        "a leaf that was joined takes no dot, so there is no third",
        16,
        &[(8, Begin), (4, Tie), (2, Tie), (1, Tie), (1, Rest)],
        &[(0, 0, Of(2), 2), (3, 14, Of(16), 0), (4, 15, Of(16), 0)],
    ),
    (
        "a second half is no second dot, and begins a value of its own",
        16,
        &[(4, Begin), (2, Tie), (2, Tie), (1, Tie), (7, Rest)],
        &[(0, 0, Of(4), 1), (2, 6, Of(8), 1), (4, 9, Of(4), 2)],
    ),
    (
        "two values with dots",
        16,
        &[(8, Begin), (4, Tie), (4, Begin), (2, Tie)],
        &[(0, 0, Of(2), 1), (2, 12, Of(4), 1)],
    ),
    (
        "a tie of the same length",
        4,
        &[(1, Begin), (1, Tie), (2, Rest)],
        &[(0, 0, Of(4), 0), (1, 1, Of(4), 0), (2, 2, Of(2), 0)],
    ),
    (
        "a tie of a third",
        12,
        &[(3, Begin), (1, Tie), (8, Rest)],
        &[
            (0, 0, Of(4), 0),
            (1, 3, Of(12), 0),
            (2, 4, Of(3), 0),
            (2, 8, Of(3), 0),
        ],
    ),
    (
        "a quarter without the half before it",
        16,
        &[(8, Begin), (2, Tie), (4, Tie), (2, Tie)],
        &[(0, 0, Of(2), 0), (1, 8, Of(8), 0), (2, 10, Of(4), 1)],
    ),
    (
        "a short leaf",
        8,
        &[(4, Short), (2, Tie), (2, Rest)],
        &[(0, 0, Of(2), 0), (1, 4, Of(4), 0), (2, 6, Of(4), 0)],
    ),
    (
        "a short leaf after",
        8,
        &[(4, Begin), (2, Short), (2, Rest)],
        &[(0, 0, Of(2), 0), (1, 4, Of(4), 0), (2, 6, Of(4), 0)],
    ),
    (
        "rests",
        8,
        &[(4, Rest), (2, Rest), (2, Begin)],
        &[(0, 0, Of(2), 0), (1, 4, Of(4), 0), (2, 6, Of(4), 0)],
    ),
    (
        "a rest before a tie and a rest after",
        8,
        &[(2, Rest), (1, Tie), (2, Begin), (1, Rest)],
        &[
            (0, 0, Of(4), 0),
            (1, 2, Of(8), 0),
            (2, 3, Of(4), 0),
            (3, 5, Of(8), 0),
        ],
    ),
    (
        "another beginning",
        8,
        &[(4, Begin), (2, Begin), (2, Rest)],
        &[(0, 0, Of(2), 0), (1, 4, Of(4), 0), (2, 6, Of(4), 0)],
    ),
    (
        "three eighths are no part of a whole note",
        16,
        &[(6, Begin), (3, Tie), (7, Rest)],
        &[(0, 0, Of(4), 1), (1, 6, Of(8), 1), (2, 9, Of(4), 2)],
    ),
    (
        "two whole notes are no part of one",
        1,
        &[(2, Begin), (1, Tie)],
        &[(0, 0, Breve, 0), (1, 2, Of(1), 0)],
    ),
    (
        "a whole note",
        2,
        &[(2, Begin), (1, Tie)],
        &[(0, 0, Of(1), 1)],
    ),
    (
        "several values of one leaf",
        3,
        &[(5, Begin), (1, Tie), (18, Rest)],
        &[
            (0, 0, Of(3), 0),
            (0, 1, Of(3), 0),
            (0, 2, Of(1), 0),
            (1, 5, Of(3), 0),
            (2, 6, Long, 0),
            (2, 18, Breve, 0),
        ],
    ),
];

/// The leaves, as far as they have some length and are in all at most 64 whole notes.
fn bar(alloc: Global, leaves: &[Leaf], whole: u64) -> Result<Vec<Timed>, AllocError>
    requires { whole ≤ 61440 }
    ensures leaves { IfOk result (λ v. All (IsTimedLeaf whole) v.items) }
    ensures sum { IfOk result (λ v. sum (map (λ x. x.len) v.items) ≤ 64 * whole) }
{
    let mut bar = Vec::new(alloc);
    let mut end = 0;
    'leaves: for (len, kind) in leaves {
        if 0 < *len && *len <= 64 * whole - end {
            bar.push(Timed {
                len: *len,
                kind: *kind,
            })?;
            end += *len;
        }
    }
    Ok(bar)
}

/// The written values of these leaves, and none where a whole note has no parts.
fn written(alloc: Global, leaves: &[Leaf], whole: u64) -> Result<Vec<Written>, AllocError> {
    if 0 < whole && whole <= 61_440 {
        let bar = bar(alloc, leaves, whole)?;
        values_of(alloc, &bar, whole)
    } else {
        Ok(Vec::new(alloc))
    }
}

#[test]
fn bars(rt: HostRuntime) -> Result<(), Fail> {
    for (name, whole, leaves, wanted) in BARS {
        let values = written(rt.alloc(), leaves, whole)?;
        let found = values
            .iter()
            .map(|w| (w.leaf, w.from, w.value.recip, w.value.dots));
        assert!(rt; found.eq(wanted.iter().copied()), "{name}");
    }
    Ok(())
}
