use crate::bars::{bar_of, chords_of, count_entries, has_entry};
use crate::grammars::{HALVES_OF_HALVES, read};
use least_cost::{Steps, build_cell};
use rhythm_base::{Best, Inner, Tag};
use std::alloc::{AllocError, Global};
use std::test::Fail;

/// What the steps of these builds are counted for.
#[derive(Clone, Copy)]
struct ByHand;

impl Tag for ByHand {}

#[test]
fn a_bar_of_400_chords(rt: HostRuntime) -> Result<(), Fail> {
    let alloc = rt.alloc();
    let mut builds = Steps::<ByHand>::zero();
    let grammar = read(alloc, HALVES_OF_HALVES)?;
    let mut chords = Vec::new(alloc);
    for number in 0..400u64 {
        let onset = number * 24 / 5;
        chords.push(Inner {
            onset,
            end: onset + 4,
        })?;
    }
    let Some(bar) = bar_of(&grammar, chords, 0, None) else {
        return Err(Fail::new("no bar"));
    };
    let table = build_cell(alloc, &grammar, &bar, &mut builds)?;
    for (from, cost) in [(0u8, 4029u64), (1, 4031), (2, 4033)] {
        assert!(rt; has_entry(&table, from, 1, Best { cost, rank: 0 }, 255));
    }
    assert!(rt; count_entries(&table) == 3);
    Ok(())
}

/// Most intervals of this bar have no onset: a chord sounds throughout in some, and none does in others.
#[test]
fn quiet_intervals_of_both_kinds(rt: HostRuntime) -> Result<(), Fail> {
    let alloc = rt.alloc();
    let mut builds = Steps::<ByHand>::zero();
    let grammar = read(alloc, HALVES_OF_HALVES)?;
    let chords = chords_of(alloc, &[(1000, 1500)])?;
    let Some(bar) = bar_of(&grammar, chords, 500, None) else {
        return Err(Fail::new("no bar"));
    };
    let table = build_cell(alloc, &grammar, &bar, &mut builds)?;
    for (from, cost) in [(0u8, 331u64), (1, 331), (2, 334), (3, 336), (4, 338)] {
        assert!(rt; has_entry(&table, from, 0, Best { cost, rank: 0 }, 255));
    }
    assert!(rt; count_entries(&table) == 5);
    Ok(())
}

/// The rules of 64 symbols: cuts in 2, 3 and 5, each by one of the next symbols, and leaves.
fn large_text(alloc: Global) -> Result<String, AllocError> {
    let mut text = String::from_str(alloc, "rhythm 1\nresolution 960\nwindow 0\nonset 1\n")?;
    for symbol in 0..64u32 {
        let first = (symbol + 1) % 64;
        let second = (symbol + 2) % 64;
        let third = (symbol + 3) % 64;
        let own = format!(in alloc;
            "S{symbol} 2 split S{first} S{first}\n\
             S{symbol} 3 split S{second} S{second} S{second}\n\
             S{symbol} 5 split S{third} S{third} S{third} S{third} S{third}\n\
             S{symbol} 4 note\n\
             S{symbol} 6 short\n\
             S{symbol} 3 tie\n\
             S{symbol} 1 rest\n\
             S{symbol} 9 grace 1\n"
        )?;
        text.push_str(own.as_str())?;
    }
    Ok(text)
}

#[test]
fn a_grammar_of_64_names_and_512_rules(rt: HostRuntime) -> Result<(), Fail> {
    let alloc = rt.alloc();
    let mut builds = Steps::<ByHand>::zero();
    let grammar = read(alloc, large_text(alloc)?.as_bytes())?;
    let chords = chords_of(alloc, &[(0, 400), (487, 887), (974, 1374), (1461, 1861)])?;
    assert!(rt; grammar.names.len() == 64 && grammar.rules.len() == 512);
    let Some(bar) = bar_of(&grammar, chords, 0, None) else {
        return Err(Fail::new("no bar"));
    };
    let table = build_cell(alloc, &grammar, &bar, &mut builds)?;
    let entries = [
        (0u8, 0u8, 86u64, 0u8, 23usize),
        (0, 1, 978, 1, 5),
        (0, 2, 3793, 2, 1),
        (1, 0, 91, 0, 23),
        (1, 1, 983, 1, 5),
    ];
    for (from, to, cost, rank, count) in entries {
        assert!(rt; has_entry(&table, from, to, Best { cost, rank }, count));
    }
    assert!(rt; count_entries(&table) == 5);
    Ok(())
}

/// Each interval may be cut into one unit and the rest.
fn deep_text(alloc: Global) -> Result<String, AllocError> {
    let mut text = String::from_str(alloc, "rhythm 2\nresolution 96\nwindow 0\nonset 1 1\n")?;
    for rest in 1..96u32 {
        let cut = format!(in alloc; "B 0 parts 1 U {rest} B\n")?;
        text.push_str(cut.as_str())?;
    }
    text.push_str("B 1000 note\nB 1000 tie\nU 0 note\nU 0 tie\n")?;
    Ok(text)
}

#[test]
fn a_tree_of_96_levels(rt: HostRuntime) -> Result<(), Fail> {
    let alloc = rt.alloc();
    let mut builds = Steps::<ByHand>::zero();
    let grammar = read(alloc, deep_text(alloc)?.as_bytes())?;
    let mut chords = Vec::new(alloc);
    for number in 0..96u64 {
        let onset = number * 20;
        chords.push(Inner {
            onset,
            end: onset + 20,
        })?;
    }
    let Some(bar) = bar_of(&grammar, chords, 0, None) else {
        return Err(Fail::new("no bar"));
    };
    let table = build_cell(alloc, &grammar, &bar, &mut builds)?;
    let Some(rules) = table.rules(0, 0) else {
        return Err(Fail::new("no rules"));
    };
    assert!(rt; rules.len() == 191);
    assert!(rt;
        table.matrix().get(0, 0)
            == Some(Best {
                cost: 1000,
                rank: 0
            })
    );
    Ok(())
}
