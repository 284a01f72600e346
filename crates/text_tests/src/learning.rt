use crate::grammars::read;
use grammar_file::print_grammar;
use rule_counts::RuleCounts;
use std::alloc::Global;
use std::test::Fail;
use weight_learning::{Bit, copied, learned};

/// One bar in quarters, by the rules of `FOUR_SYMBOLS` and of `ONE_RULE_A_SYMBOL`.
const FOUR_QUARTERS: &[u16] = &[3, 7, 8, 8, 7, 8, 8];

const FOUR_QUARTERS_ALONE: &[u16] = &[0, 1, 2, 2, 1, 2, 2];

const ONE_RULE_A_SYMBOL: &str = "rhythm 1\nresolution 4\nwindow 30000\nonset 1\nstart 4/4 B\n\
    B 0 split H H\nH 0 split Q Q\nQ 0 note\n";

const FOUR_SYMBOLS: &str = "rhythm 1\nresolution 8\nwindow 30000\nonset 1\nstart 4/4 B\n\
    B 10 note\nB 10 tie\nB 5 rest\nB 20 split H H\nH 10 note\nH 10 tie\nH 10 rest\nH 20 split Q Q\n\
    Q 10 note\nQ 15 short\nQ 10 tie\nQ 10 rest\nQ 40 split E E\n\
    E 10 note\nE 20 short\nE 10 tie\nE 10 rest\nE 60 grace 1\n";

/// A grammar of version 2 with unequal parts, whose rules of a symbol stand apart.
const APART: &str = "rhythm 2\nresolution 4\nwindow 0\nonset 3 1\nstart 4/4 B\n\
    B 0 parts 3 H 1 H\nH 7 note\nB 100 split H H\nH 1000000 tie\n";

/// A grammar, the rule lists that are counted, BIT, and the grammar that is learned.
const LEARNED: [(&str, &[&[u16]], u32, &str); 6] = [
    (
        ONE_RULE_A_SYMBOL,
        &[FOUR_QUARTERS_ALONE],
        17,
        ONE_RULE_A_SYMBOL,
    ),
    (FOUR_SYMBOLS, &[], 17, FOUR_SYMBOLS),
    (
        FOUR_SYMBOLS,
        &[FOUR_QUARTERS],
        17,
        "rhythm 1\nresolution 8\nwindow 30000\nonset 1\nstart 4/4 B\n\
         B 34 note\nB 34 tie\nB 29 rest\nB 38 split H H\nH 34 note\nH 34 tie\nH 34 rest\nH 33 split Q Q\n\
         Q 24 note\nQ 44 short\nQ 39 tie\nQ 39 rest\nQ 69 split E E\n\
         E 10 note\nE 20 short\nE 10 tie\nE 10 rest\nE 60 grace 1\n",
    ),
    (
        FOUR_SYMBOLS,
        &[FOUR_QUARTERS, FOUR_QUARTERS],
        17,
        "rhythm 1\nresolution 8\nwindow 30000\nonset 1\nstart 4/4 B\n\
         B 35 note\nB 35 tie\nB 30 rest\nB 34 split H H\nH 36 note\nH 36 tie\nH 36 rest\nH 28 split Q Q\n\
         Q 19 note\nQ 47 short\nQ 42 tie\nQ 42 rest\nQ 72 split E E\n\
         E 10 note\nE 20 short\nE 10 tie\nE 10 rest\nE 60 grace 1\n",
    ),
    (
        APART,
        &[&[0, 1, 1]],
        1,
        "rhythm 2\nresolution 4\nwindow 0\nonset 3 1\nstart 4/4 B\n\
         B 0 parts 3 H 1 H\nH 0 note\nB 14 split H H\nH 14 tie\n",
    ),
    (
        APART,
        &[&[2, 1, 3], &[0, 1, 1]],
        10_000,
        "rhythm 2\nresolution 4\nwindow 0\nonset 3 1\nstart 4/4 B\n\
         B 10000 parts 3 H 1 H\nH 625 note\nB 10000 split H H\nH 45781 tie\n",
    ),
];

/// The text of the grammar that is learned from rule lists.
fn learned_text(alloc: Global, text: &[u8], lists: &[&[u16]], bit: u32) -> Result<Vec<u8>, Fail> {
    let Some(bit) = Bit::new(bit) else {
        return Err("a bit in range".into());
    };
    let grammar = read(alloc, text)?;
    let mut counts = RuleCounts::zeros(alloc, grammar.rules.len())?;
    for list in lists {
        let rules = counts.as_slice().len();
        if !list.iter().all(|rule| usize::from(*rule) < rules) {
            return Err("rules of the grammar".into());
        }
        counts.add(list);
    }
    if copied(alloc, &grammar)?.rules.len() != grammar.rules.len() {
        return Err("an equal grammar".into());
    }
    Ok(print_grammar(alloc, &learned(alloc, &grammar, &counts, bit)?)?)
}

#[test]
fn learns_weights(rt: HostRuntime) -> Result<(), Fail> {
    for (text, lists, bit, expected) in LEARNED {
        let found = learned_text(rt.alloc(), text.as_bytes(), lists, bit)?;
        assert_eq!(rt; found.as_slice(), expected.as_bytes(), "{text} {bit}");
    }
    Ok(())
}
