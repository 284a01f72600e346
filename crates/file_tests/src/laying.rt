ghost use Rattle.std.specs.List.Sorted.{IsNonDecreasing};
ghost use Rattle.std.specs.Prelude.{IfOk, map};

use rhythm_base::{Bar, BarFault, Event, KeyMark, Signature, Tempo, What};
use std::alloc::{AllocError, Global};
use std::test::Fail;
use tempo_map::{Laid, TempoMap, changes_of, lay_bars};

/// A change of signature: its tick, its beats and the power of two that is the value of a beat.
type Change = (u64, u8, u8);

/// A bar: its start, its beats and the value of a beat.
type Laying = (u64, u8, u8);

/// The division, the changes of signature, the last onset and the last end, and the bars and the last barline.
const LAYINGS: [(&str, u16, &[Change], u64, u64, &[Laying], u64); 2] = [
    (
        "in the last sixteenth",
        480,
        &[],
        1801,
        1801,
        &[(0, 4, 4), (1920, 4, 4)],
        3840,
    ),
    (
        "a signature inside a bar",
        480,
        &[(960, 6, 3)],
        1920,
        3360,
        &[(0, 4, 4), (1920, 6, 8)],
        3360,
    ),
];

fn signatures_of(alloc: Global, changes: &[Change]) -> Result<Vec<Signature>, AllocError> {
    changes
        .iter()
        .map(|(tick, num, dd)| Signature {
            tick: *tick,
            num: *num,
            dd: *dd,
        })
        .collect(alloc)
}

fn tempos_of(alloc: Global, changes: &[(u64, u32)]) -> Result<Vec<Tempo>, AllocError> {
    changes
        .iter()
        .map(|(tick, micros)| Tempo {
            tick: *tick,
            micros: *micros,
        })
        .collect(alloc)
}

fn layings_of(alloc: Global, bars: &[Bar]) -> Result<Vec<Laying>, AllocError> {
    bars.iter()
        .map(|bar| (bar.start, bar.num, bar.den))
        .collect(alloc)
}

/// The bars for these signatures, which are put in order first.
fn laid(
    alloc: Global,
    division: u16,
    changes: &[Change],
    last_onset: u64,
    last_end: u64,
) -> Result<Laid, BarFault> {
    let mut signatures = signatures_of(alloc, changes)?;
    signatures.sort_by_key(|signature| signature.tick)?;
    let end = last_end.min(1_000_000_000);
    lay_bars(
        alloc,
        division.max(1).min(32767),
        signatures.as_slice(),
        last_onset.min(end),
        end,
    )
}

#[test]
fn bars(rt: HostRuntime) -> Result<(), Fail> {
    for (name, division, signatures, onset, end, bars, last) in &LAYINGS {
        let laid = laid(rt.alloc(), *division, signatures, *onset, *end)
            .ok()
            .ok_or(*name)?;
        let layings = layings_of(rt.alloc(), laid.bars.as_slice())?;
        assert_eq!(rt; (layings.as_slice(), laid.last), (*bars, *last), "{name}");
    }
    Ok(())
}

#[test]
fn a_bar_too_many(rt: HostRuntime) -> Result<(), Fail> {
    let fault = laid(rt.alloc(), 1, &[], 0, 16385).err();
    assert_eq!(rt; fault, Some(BarFault::TooManyBars { start: 16384 }));
    Ok(())
}

/// These tempos in order.
fn tempos_in_order(alloc: Global, changes: &[(u64, u32)]) -> Result<Vec<Tempo>, AllocError>
    ensures { IfOk result (λ v. IsNonDecreasing (map (λ t. t.tick) v.items)) }
{
    let mut tempos = tempos_of(alloc, changes)?;
    tempos.sort_by_key(|change| change.tick)?;
    Ok(tempos)
}

/// These keys in order.
fn keys_in_order(alloc: Global, changes: &[KeyMark]) -> Result<Vec<KeyMark>, AllocError>
    ensures { IfOk result (λ v. IsNonDecreasing (map (λ k. k.tick) v.items)) }
{
    let mut key_marks = changes.to_vec(alloc)?;
    key_marks.sort_by_key(|change| change.tick)?;
    Ok(key_marks)
}

/// Changes of tempo and a tick, and the time and the tempo there.
const TIMES: [(&[(u64, u32)], u64, u64, u32); 9] = [
    (&[], 0, 0, 500_000),
    (&[], 3, 1_500_000, 500_000),
    (&[(0, 480_000), (10, 960_000)], 9, 4_320_000, 480_000),
    (&[(0, 480_000), (10, 960_000)], 10, 4_800_000, 960_000),
    (&[(0, 480_000), (10, 960_000)], 20, 14_400_000, 960_000),
    (&[(0, 480_000), (10, 960_000)], 21, 15_360_000, 960_000),
    (&[(4, 1), (4, 1000)], 6, 2_002_000, 1000),
    (&[(2, 1)], 2_000_000_000, 2_000_999_998, 1),
    (
        &[(0, 7), (2_000_000_001, 1)],
        2_000_000_000,
        14_000_000_000,
        7,
    ),
];

#[test]
fn times(rt: HostRuntime) -> Result<(), Fail> {
    for (tempos, tick, time, micros) in &TIMES {
        let tempos = tempos_in_order(rt.alloc(), tempos)?;
        let map = TempoMap::new(rt.alloc(), tempos.as_slice(), &[])?;
        let tick = (*tick).min(2_000_000_000);
        assert_eq!(rt;
            (map.time(tick), map.tempo_at(tick)),
            (*time, *micros),
            "at {tick}"
        );
    }
    Ok(())
}

#[test]
fn keys(rt: HostRuntime) -> Result<(), Fail> {
    let marks = [KeyMark { tick: 5, sf: -2 }, KeyMark { tick: 8, sf: 3 }];
    let marks = keys_in_order(rt.alloc(), &marks)?;
    let map = TempoMap::new(rt.alloc(), &[], marks.as_slice())?;
    for (tick, key) in [(4, None), (5, Some(-2)), (7, Some(-2)), (8, Some(3))] {
        let tick = u64::min(tick, 2_000_000_000);
        assert_eq!(rt; map.key_at(tick), key, "at {tick}");
    }
    Ok(())
}

/// Events of which some are changes of tempo, key and signature.
const EVENTS: [Event; 6] = [
    Event {
        tick: 0,
        what: What::Tempo(480_000),
    },
    Event {
        tick: 0,
        what: What::On {
            channel: 0,
            key: 60,
        },
    },
    Event {
        tick: 3,
        what: What::KeySig(-7),
    },
    Event {
        tick: 4,
        what: What::Signature { num: 0, dd: 9 },
    },
    Event {
        tick: 5,
        what: What::Off {
            channel: 0,
            key: 60,
        },
    },
    Event {
        tick: 6,
        what: What::Tempo(1),
    },
];

#[test]
fn changes(rt: HostRuntime) -> Result<(), Fail> {
    let changes = changes_of(rt.alloc(), &EVENTS)?;
    let tempos = tempos_of(rt.alloc(), &[(0, 480_000), (6, 1)])?;
    let signatures = signatures_of(rt.alloc(), &[(4, 0, 9)])?;
    assert_eq!(rt;
        (
            changes.tempos.as_slice(),
            changes.key_marks.as_slice(),
            changes.signatures.as_slice()
        ),
        (
            tempos.as_slice(),
            [KeyMark { tick: 3, sf: -7 }].as_slice(),
            signatures.as_slice()
        )
    );
    Ok(())
}
