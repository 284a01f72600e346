ghost use Rattle.std.specs.Prelude.{◌≡◌, ◌∷◌, []};
ghost use Rattle.table_tests.specs.Bars.{quarter_bar};

use crate::grammars::read;
use bar_cut::{CutFault, cut};
use rhythm_base::{Bar, Chord, Inner, Keys, Pin, Shape};
use std::test::Fail;

/// A grammar of 8 units with a root symbol for 4/4.
const EIGHTHS: &[u8] = b"\
    rhythm 1\n\
    resolution 8\n\
    window 30000\n\
    onset 1\n\
    start 4/4 B\n\
    B 0 note\n\
";

/// A grammar without a root symbol.
const ROOTLESS: &[u8] = b"\
    rhythm 1\n\
    resolution 8\n\
    window 30000\n\
    onset 1\n\
    B 0 note\n\
";

fn chord(onset: u64, end: u64) -> Chord
    ensures { (result.onset ≡ onset) × (result.end ≡ end) }
{
    Chord {
        onset,
        end,
        keys: Keys::one(60),
    }
}

/// A bar of so many quarters.
fn quarter_bar(start: u64, num: u8) -> Bar
    ensures { result ≡ quarter_bar start num }
{
    Bar { start, num, den: 4 }
}

/// Two bars of 4/4, 1,920 ticks each.
fn two_bars() -> [Bar; 2]
    ensures { result ≡ quarter_bar 0 4 ∷ quarter_bar 1920 4 ∷ [] }
{
    [quarter_bar(0, 4), quarter_bar(1920, 4)]
}

/// Two bars of 4/4 whose barline was moved 80 ticks back.
fn moved_bars() -> [Bar; 2]
    ensures { result ≡ quarter_bar 0 4 ∷ quarter_bar 2000 4 ∷ [] }
{
    [quarter_bar(0, 4), quarter_bar(2000, 4)]
}

/// A bar of 4/4 and one of 3/4.
fn unlike_bars() -> [Bar; 2]
    ensures { result ≡ quarter_bar 0 4 ∷ quarter_bar 1920 3 ∷ [] }
{
    [quarter_bar(0, 4), quarter_bar(1920, 3)]
}

#[test]
fn cuts_at_the_barline(rt: HostRuntime) -> Result<(), Fail> {
    let alloc = rt.alloc();
    let grammar = read(alloc, EIGHTHS)?;
    let voice = [chord(480, 960), chord(1900, 2400)];
    let cells = cut(alloc, &voice, &two_bars(), 3840, &grammar, &[], 0)?;
    assert!(rt; cells.len() == 2);
    let first = [
        Inner {
            onset: 480,
            end: 960,
        },
        Inner {
            onset: 1900,
            end: 1920,
        },
    ];
    assert!(rt; cells[0].onsets() == first.as_slice());
    assert!(rt; cells[0].before() == 0);
    assert!(rt; cells[0].start() == 0 && cells[0].resolution() == 8);
    assert!(rt; cells[0].num() == 4 && cells[0].den() == 4);
    assert!(rt; cells[0].length() == 1920);
    assert!(rt; cells[0].pin().is_none());
    assert!(rt; cells[1].onsets().is_empty());
    // The chord that began before the bar ends 480 ticks into it.
    assert!(rt; cells[1].before() == 480);
    // With the barline at 2,000 it ends 400 ticks into the bar, which is 1,840 ticks long.
    let moved = cut(alloc, &voice, &moved_bars(), 3840, &grammar, &[], 0)?;
    assert!(rt; moved[0].length() == 2000 && moved[1].length() == 1840);
    assert!(rt; moved[1].before() == 400);
    Ok(())
}

#[test]
fn an_onset_on_the_barline_is_in_the_next_bar(rt: HostRuntime) -> Result<(), Fail> {
    let alloc = rt.alloc();
    let grammar = read(alloc, EIGHTHS)?;
    let voice = [chord(0, 3840), chord(1920, 1920)];
    let cells = cut(alloc, &voice, &two_bars(), 3840, &grammar, &[], 0)?;
    assert!(rt;
        cells[0].onsets()
            == [Inner {
                onset: 0,
                end: 1920
            }]
            .as_slice()
    );
    assert!(rt; cells[1].onsets() == [Inner { onset: 0, end: 0 }].as_slice());
    assert!(rt; cells[1].before() == 1920);
    let silent = cut(alloc, &[], &two_bars(), 3840, &grammar, &[], 0)?;
    assert!(rt; silent.len() == 2);
    assert!(rt; silent[0].onsets().is_empty() && silent[1].before() == 0);
    Ok(())
}

#[test]
fn a_pin_is_of_one_voice_and_bar(rt: HostRuntime) -> Result<(), Fail> {
    let alloc = rt.alloc();
    let grammar = read(alloc, EIGHTHS)?;
    let halves = Shape::cut(vec![in alloc; Shape::leaf(), Shape::leaf()]?);
    let pins = vec![in alloc;
        Pin {
            channel: 0,
            bar: 0,
            shape: Shape::leaf()
        },
        Pin {
            channel: 1,
            bar: 1,
            shape: halves.copy(alloc)?
        },
    ]?;
    let cells = cut(alloc, &[], &two_bars(), 3840, &grammar, &pins, 1)?;
    assert!(rt; cells[0].pin().is_none());
    assert!(rt; cells[1].pin().is_some_and(|shape| shape.same(&halves)));
    let other = cut(alloc, &[], &two_bars(), 3840, &grammar, &pins, 0)?;
    assert!(rt;
        other[0]
            .pin()
            .is_some_and(|shape| shape.same(&Shape::leaf()))
    );
    assert!(rt; other[1].pin().is_none());
    Ok(())
}

#[test]
fn names_the_first_bar_without_a_root_symbol(rt: HostRuntime) -> Result<(), Fail> {
    let alloc = rt.alloc();
    let grammar = read(alloc, EIGHTHS)?;
    let second = cut(alloc, &[], &unlike_bars(), 3840, &grammar, &[], 0);
    assert!(rt;
        matches!(
            second,
            Err(CutFault::NoStart {
                bar: 1,
                num: 3,
                den: 4
            })
        )
    );
    let grammar = read(alloc, ROOTLESS)?;
    let first = cut(alloc, &[], &unlike_bars(), 3840, &grammar, &[], 0);
    assert!(rt;
        matches!(
            first,
            Err(CutFault::NoStart {
                bar: 0,
                num: 4,
                den: 4
            })
        )
    );
    Ok(())
}
