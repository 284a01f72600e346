ghost use Rattle.grammar_plan.specs.LeafTables.{AreAllFirst, AreFirstBelow, lighter_of, place_in, place_of_ending};
ghost use Rattle.rhythm_base.specs.Readable.{IsReadable};
ghost use Rattle.grammar_plan.specs.Plans.{place_of_leaf};
ghost use Rattle.std.specs.Prelude.{◌≡◌, ◌<◌, ◌≤◌, IfOk, length};

use crate::leaf_rule::LeafRule;
use rhythm_base::{Carry, Ending, Grammar, Rule};
use std::alloc::{AllocError, Global};

/// The rules that end the leaves of a symbol: those of a note, a short, a tie and a rest, and of 1 to 3 grace chords.
pub fn leaf_rules(grammar: &Grammar, symbol: u8) -> [Option<LeafRule>; 7]
    requires { IsReadable grammar.now }
    ensures long { length result ≡ 7 }
    ensures first { AreFirstBelow grammar.now symbol (length grammar.now.rules) result }
{
    let mut row = [None; 7];
    'rules: for number in 0..grammar.rules.len() {
        let rule = &grammar.rules[number];
        if let Some(place) = place_in(rule, symbol) {
            row[place] = Some(lighter(
                row[place],
                LeafRule {
                    rule: number as u16,
                    weight: rule.weight,
                },
            ));
        }
    }
    row
}

/// The first rule, unless there is none or the second is lighter.
fn lighter(first: Option<LeafRule>, second: LeafRule) -> LeafRule
    ensures { result ≡ lighter_of first second }
{
    match first {
        Some(kept) if kept.weight <= second.weight => kept,
        Some(_) | None => second,
    }
}

/// The place of the rule among those of the leaves of the symbol, where it is one of them.
fn place_in(rule: &Rule, symbol: u8) -> Option<usize>
    ensures { result ≡ place_in rule.now symbol }
{
    if rule.lhs != symbol {
        return None;
    }
    match rule.body.ending() {
        Some(ending) => place_of(ending),
        None => None,
    }
}

fn place_of(ending: Ending) -> Option<usize>
    ensures { result ≡ place_of_ending ending }
{
    match ending {
        Ending::Note => Some(0),
        Ending::Short => Some(1),
        Ending::Tie => Some(2),
        Ending::Rest => Some(3),
        Ending::Grace(count) => {
            if count > 0 && count < 4 {
                Some(count as usize + 3)
            } else {
                None
            }
        }
    }
}

/// By symbol: the rules of its leaves.
pub fn all_leaf_rules(
    alloc: Global,
    grammar: &Grammar,
) -> Result<Vec<[Option<LeafRule>; 7]>, AllocError>
    requires { IsReadable grammar.now }
    ensures long { IfOk result (λ leaves. length leaves.items ≡ length grammar.now.names) }
    ensures first { IfOk result (λ leaves. AreAllFirst grammar.now leaves.items) }
{
    let mut leaves = Vec::new(alloc);
    'symbols: for symbol in 0..grammar.names.len() {
        leaves.push(leaf_rules(grammar, symbol as u8))?;
    }
    Ok(leaves)
}

/// The place of the leaves to which so many chords are attached, and in which the latest chord sounds or not.
#[inline(always)]
pub fn place_of_leaf(count: Carry, sounds: bool) -> usize
    ensures place { result ≡ place_of_leaf count sounds }
    ensures low { result < 7 }
{
    match (count.count(), sounds) {
        (0, true) => 2,
        (0, false) => 3,
        (1, true) => 0,
        (1, false) => 1,
        (more, _) => more as usize + 2,
    }
}
