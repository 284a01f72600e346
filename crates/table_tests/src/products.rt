use carry_matrix::{CarryMatrix, Steps, middle, product};
use rhythm_base::{Best, Carry, Tag};
use std::test::Fail;

/// What the steps of these products are counted for.
#[derive(Clone, Copy)]
struct ByHand;

impl Tag for ByHand {}

const NOTHING: [Option<Best>; 5] = [None, None, None, None, None];

fn row(matrix: &CarryMatrix, from: Carry) -> [Option<Best>; 5] {
    let mut row = NOTHING;
    'counts: for to in 0..5u8 {
        row[to as usize] = matrix.entry(from, Carry::of(to));
    }
    row
}

const fn best(cost: u64, rank: u8) -> Option<Best> {
    Some(Best { cost, rank })
}

#[test]
fn products_by_hand(rt: HostRuntime) -> Result<(), Fail> {
    let mut steps = Steps::<ByHand>::zero();
    // To no chord for 5, or to one for 3 by the lower list.
    let either = CarryMatrix::make([
        [
            Some(Best { cost: 5, rank: 1 }),
            Some(Best { cost: 3, rank: 0 }),
            None,
            None,
            None,
        ],
        NOTHING,
        NOTHING,
        NOTHING,
        NOTHING,
    ]);
    // From no chord for 2. From one to none for 4, or to four for 1 by the lower list.
    let after = CarryMatrix::make([
        [Some(Best { cost: 2, rank: 0 }), None, None, None, None],
        [
            Some(Best { cost: 4, rank: 1 }),
            None,
            None,
            None,
            Some(Best { cost: 1, rank: 0 }),
        ],
        NOTHING,
        NOTHING,
        NOTHING,
    ]);
    // Both ways to no chord cost 7, and the lower list in the first matrix decides. It is the same for both ends, so that
    // those in the second matrix decide between them.
    let both = product(&either, &after, &mut steps);
    assert!(rt; steps.count() == 1);
    assert!(rt; middle(&either, &after, 0, 0) == Some(1));
    assert!(rt; middle(&either, &after, 0, 4) == Some(1));
    assert!(rt; middle(&either, &after, 0, 1).is_none());
    assert!(rt; row(&both, Carry::of(0)) == [best(7, 1), None, None, None, best(4, 0)]);
    assert!(rt; row(&both, Carry::of(1)) == NOTHING);
    Ok(())
}

#[test]
fn four_chords_are_carried_like_others(rt: HostRuntime) -> Result<(), Fail> {
    let mut steps = Steps::<ByHand>::zero();
    let to_four = CarryMatrix::make([
        [None, None, None, None, Some(Best { cost: 1, rank: 0 })],
        NOTHING,
        NOTHING,
        NOTHING,
        NOTHING,
    ]);
    let from_four = CarryMatrix::make([
        NOTHING,
        NOTHING,
        NOTHING,
        NOTHING,
        [Some(Best { cost: 6, rank: 0 }), None, None, None, None],
    ]);
    let over = product(&to_four, &from_four, &mut steps);
    assert!(rt; row(&over, Carry::of(0)) == [best(7, 0), None, None, None, None]);
    assert!(rt; middle(&to_four, &from_four, 0, 0) == Some(4));
    let none = product(&from_four, &to_four, &mut steps);
    assert!(rt;
        row(&none, Carry::of(0)) == NOTHING
            && row(&none, Carry::of(4)) == [None, None, None, None, best(7, 0)]
    );
    Ok(())
}
