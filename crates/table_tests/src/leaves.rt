use interval::{Attached, displacement, late, side, sounds};
use std::test::Fail;

#[test]
fn decides_at_the_middle(rt: HostRuntime) -> Result<(), Fail> {
    // A bar of 1,920 ticks in two halves: the first half's middle is at tick 480.
    let cases = [
        (0, 480, Attached::Left),
        (0, 481, Attached::Right),
        (0, 960, Attached::After),
        (1, 959, Attached::Before),
        (1, 960, Attached::Left),
        (1, 1440, Attached::Left),
        (1, 1441, Attached::Right),
    ];
    for (p, onset, wanted) in cases {
        assert!(rt; side(1920, 2, p, 1, onset) == wanted);
    }
    assert!(rt; sounds(1920, 2, 0, 1, 480));
    assert!(rt; !sounds(1920, 2, 0, 1, 479));
    assert!(rt; sounds(1920, 2, 0, 2, 960));
    assert!(rt; !sounds(1920, 2, 1, 1, 1439));
    // A chord from before the bar that ends with it sounds in both halves.
    assert!(rt; sounds(1920, 2, 0, 1, 1920) && sounds(1920, 2, 1, 1, 1920));
    Ok(())
}

#[test]
fn measures_from_the_unit(rt: HostRuntime) -> Result<(), Fail> {
    assert!(rt; displacement(4, 4, 1920, 2, 0, 480) == 960);
    assert!(rt; displacement(4, 4, 1920, 2, 1, 481) == 958);
    assert!(rt; displacement(4, 4, 1920, 8, 8, 1900) == 40);
    assert!(rt; displacement(4, 4, 1920, 8, 0, 21) == 42);
    assert!(rt; late(1920, 2, 0, 480));
    assert!(rt; !late(1920, 2, 1, 481));
    assert!(rt; !late(1920, 2, 1, 960));
    // The longest bar, 64 whole notes of 2,000,000,000 ticks.
    assert!(rt; displacement(64, 1, 2_000_000_000, 960, 960, 0) == 245_760);
    Ok(())
}
