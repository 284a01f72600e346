ghost use Rattle.rhythm_base.specs.Paths.{AreCheap, IsCheap};

use carry_matrix::CarryMatrix;
use rhythm_base::Best;

const NOTHING: [Option<Best>; 5] = [None, None, None, None, None];

/// A bar that carries on what is carried in, for nothing.
pub fn open_bar() -> CarryMatrix
    ensures { IsCheap 500000000000 result }
{
    CarryMatrix::identity()
}

/// A bar without a tree.
pub fn closed_bar() -> CarryMatrix
    ensures { IsCheap 500000000000 result }
{
    CarryMatrix::make([NOTHING, NOTHING, NOTHING, NOTHING, NOTHING])
}

/// A bar of 4/4 in 1,920 ticks with a chord from 1,700 to 1,800, where a whole bar is a note, a rest, a tie or a short note,
/// and lateness costs 1: the onset is nearer to the next barline, so that its chord is carried out.
pub fn late_onset() -> CarryMatrix
    ensures { IsCheap 500000000000 result }
{
    CarryMatrix::make([
        [None, Some(Best { cost: 440, rank: 0 }), None, None, None],
        [None, Some(Best { cost: 440, rank: 0 }), None, None, None],
        NOTHING,
        NOTHING,
        NOTHING,
    ])
}

/// A bar of 4/4 in 1,920 ticks with a chord from 1,900 to 1,920, which is carried out.
pub fn rest_before() -> CarryMatrix
    ensures { IsCheap 500000000000 result }
{
    CarryMatrix::make([
        [None, Some(Best { cost: 45, rank: 0 }), None, None, None],
        [None, Some(Best { cost: 115, rank: 0 }), None, None, None],
        [None, Some(Best { cost: 210, rank: 0 }), None, None, None],
        NOTHING,
        NOTHING,
    ])
}

/// The bar after it, without an onset.
pub fn short_after() -> CarryMatrix
    ensures { IsCheap 500000000000 result }
{
    CarryMatrix::make([
        [Some(Best { cost: 5, rank: 0 }), None, None, None, None],
        [Some(Best { cost: 75, rank: 0 }), None, None, None, None],
        [Some(Best { cost: 170, rank: 0 }), None, None, None, None],
        NOTHING,
        NOTHING,
    ])
}

/// A bar between the two.
pub fn either_between() -> CarryMatrix
    ensures { IsCheap 500000000000 result }
{
    CarryMatrix::make([
        NOTHING,
        [
            Some(Best { cost: 3, rank: 1 }),
            Some(Best { cost: 4, rank: 0 }),
            None,
            None,
            None,
        ],
        NOTHING,
        NOTHING,
        NOTHING,
    ])
}

/// To no chord for 9 by the lower list, or to one for 1.
pub fn dear_or_carried() -> CarryMatrix
    ensures { IsCheap 500000000000 result }
{
    CarryMatrix::make([
        [
            Some(Best { cost: 9, rank: 0 }),
            Some(Best { cost: 1, rank: 1 }),
            None,
            None,
            None,
        ],
        NOTHING,
        NOTHING,
        NOTHING,
        NOTHING,
    ])
}

/// To no chord for 2, or to two for 3 by the lower list.
pub fn tied_before() -> CarryMatrix
    ensures { IsCheap 500000000000 result }
{
    CarryMatrix::make([
        [
            Some(Best { cost: 2, rank: 1 }),
            None,
            Some(Best { cost: 3, rank: 0 }),
            None,
            None,
        ],
        NOTHING,
        NOTHING,
        NOTHING,
        NOTHING,
    ])
}

/// From no chord for 2, from one for 2, and from two for 1.
pub fn tied_after() -> CarryMatrix
    ensures { IsCheap 500000000000 result }
{
    CarryMatrix::make([
        [Some(Best { cost: 2, rank: 0 }), None, None, None, None],
        [Some(Best { cost: 2, rank: 0 }), None, None, None, None],
        [Some(Best { cost: 1, rank: 0 }), None, None, None, None],
        NOTHING,
        NOTHING,
    ])
}

/// A bar with many ways of equal cost.
pub fn plain() -> CarryMatrix
    ensures { IsCheap 500000000000 result }
{
    CarryMatrix::make([
        [
            Some(Best { cost: 2, rank: 1 }),
            Some(Best { cost: 2, rank: 0 }),
            Some(Best { cost: 1, rank: 2 }),
            None,
            None,
        ],
        [
            Some(Best { cost: 1, rank: 2 }),
            Some(Best { cost: 2, rank: 1 }),
            Some(Best { cost: 2, rank: 0 }),
            None,
            None,
        ],
        [
            Some(Best { cost: 1, rank: 0 }),
            None,
            None,
            Some(Best { cost: 3, rank: 1 }),
            None,
        ],
        [
            Some(Best { cost: 0, rank: 0 }),
            Some(Best { cost: 1, rank: 1 }),
            None,
            None,
            None,
        ],
        [Some(Best { cost: 1, rank: 0 }), None, None, None, None],
    ])
}

/// A bar with many ways of equal cost.
pub fn wide() -> CarryMatrix
    ensures { IsCheap 500000000000 result }
{
    CarryMatrix::make([
        [
            Some(Best { cost: 1, rank: 0 }),
            Some(Best { cost: 1, rank: 2 }),
            None,
            None,
            Some(Best { cost: 0, rank: 1 }),
        ],
        [
            Some(Best { cost: 2, rank: 1 }),
            Some(Best { cost: 1, rank: 0 }),
            None,
            None,
            None,
        ],
        [
            Some(Best { cost: 1, rank: 1 }),
            None,
            Some(Best { cost: 1, rank: 0 }),
            None,
            None,
        ],
        [Some(Best { cost: 1, rank: 0 }), None, None, None, None],
        [
            Some(Best { cost: 2, rank: 1 }),
            None,
            Some(Best { cost: 1, rank: 0 }),
            None,
            None,
        ],
    ])
}

/// A bar with many ways of equal cost.
pub fn dear() -> CarryMatrix
    ensures { IsCheap 500000000000 result }
{
    CarryMatrix::make([
        [
            Some(Best { cost: 3, rank: 2 }),
            Some(Best { cost: 1, rank: 0 }),
            Some(Best { cost: 1, rank: 1 }),
            None,
            None,
        ],
        [
            Some(Best { cost: 1, rank: 0 }),
            None,
            None,
            Some(Best { cost: 1, rank: 1 }),
            None,
        ],
        [
            Some(Best { cost: 1, rank: 1 }),
            Some(Best { cost: 2, rank: 0 }),
            None,
            None,
            None,
        ],
        [Some(Best { cost: 0, rank: 0 }), None, None, None, None],
        [
            Some(Best { cost: 1, rank: 1 }),
            None,
            None,
            None,
            Some(Best { cost: 0, rank: 0 }),
        ],
    ])
}

/// Those three, in some order.
pub fn nine_bars() -> [CarryMatrix; 9]
    ensures { AreCheap 500000000000 result }
{
    let a = plain();
    let b = wide();
    let c = dear();
    [a, b, c, a, a, b, c, c, b]
}
