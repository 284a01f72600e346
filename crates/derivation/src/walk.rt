ghost use Rattle.derivation.specs.RuleLists.{AreRead};
ghost use Rattle.derivation.specs.TimedLeaves.{IsTimedBar};
ghost use Rattle.rhythm_base.specs.Bodies.{children, sizes};
ghost use Rattle.std.specs.Prelude.{[], ◌∷◌, ◌≡◌, ◌+◌, ◌^◌, ◌<◌, ◌≤◌, ℕ, IfOk, get_or, length, option_map, slice_get};

use crate::leaf::{TimedBar, TimedLeaf};
use rhythm_base::{Body, Rule};
use std::alloc::AllocError;

/// The rule of this number, counted from 0.
fn rule_at(rules: &[Rule], number: u16) -> Option<&Rule>
    ensures { option_map (λ r. r.now) result ≡ slice_get rules.now number }
{
    rules.get(usize::from(number))
}

/// Appends the leaves of a tree over the units of the bar from `place` on, left to right. The list begins with the tree's
/// rules in preorder, and what stands after them is given. The leaves do not depend on the tree's symbol.
#[cycle(walk)]
pub fn push_tree<'a>(
    rules: &[Rule],
    bar: &TimedBar,
    place: u16,
    width: u16,
    list: &'a [u16],
    leaves: &mut Vec<TimedLeaf>,
) -> Result<&'a [u16], AllocError>
    requires bar { IsTimedBar bar.now }
    requires within { place + width < 2 ^ 16 }
    ensures read { IfOk result (λ rest. (symbol : ℕ)
        → AreRead rules.now bar.now place ((width, symbol) ∷ []) list.now rest.now leaves.old.items leaves.new.items) }
    ensures shorter { IfOk result (λ rest. length rest.now ≤ length list.now) }
{
    let [number, rest @ ..] = list else {
        return Ok(list);
    };
    let Some(rule) = rule_at(rules, *number) else {
        return Ok(rest);
    };
    if let Some(ending) = rule.body.ending() {
        leaves.push(bar.leaf(ending, place, width))?;
        return Ok(rest);
    }
    push_parts(rules, bar, place, width, &rule.body, rest, leaves)
}

/// Appends the leaves of the trees of the parts into which the body cuts so many units from `place` on.
#[cycle(walk)]
fn push_parts<'a>(
    rules: &[Rule],
    bar: &TimedBar,
    place: u16,
    width: u16,
    body: &Body,
    list: &'a [u16],
    leaves: &mut Vec<TimedLeaf>,
) -> Result<&'a [u16], AllocError>
    requires bar { IsTimedBar bar.now }
    requires within { place + width < 2 ^ 16 }
    ensures read { IfOk result (λ rest.
        AreRead rules.now bar.now place (children body.now width) list.now rest.now leaves.old.items leaves.new.items) }
    ensures shorter { IfOk result (λ rest. length rest.now ≤ length list.now) }
{
    let mut place = place;
    let mut rest = list;
    'parts: for number in 0..body.part_count() {
        let part = part_width(body, width, number);
        rest = push_tree(rules, bar, place, part, rest, leaves)?;
        place += part;
    }
    Ok(rest)
}

/// How wide a part is, counted from 0, of what the body cuts.
fn part_width(body: &Body, width: u16, number: usize) -> u16
    requires { number < length (children body.now width) }
    ensures { (d : ℕ × ℕ) → result ≡ (get_or (children body.now width) number d).0 }
{
    match body {
        Body::Split(symbols) => (usize::from(width) / symbols.as_slice().len().max(1)) as u16,
        Body::Parts(parts) => {
            let share = (u128::from(width) / sizes(parts.as_slice()).max(1)) as u16;
            u16::from(parts.as_slice()[number].0) * share
        }
        _ => 0,
    }
}

/// The sum of the sizes of unequal parts.
fn sizes(parts: &[(u8, u8)]) -> u128
    ensures { result ≡ sizes parts.now }
{
    let mut total = 0u128;
    for part in parts {
        total += part.0 as u128;
    }
    total
}
