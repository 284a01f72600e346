ghost use Rattle.least_rows.specs.Choices.{choice_in, choice_of_leaf};
ghost use Rattle.least_rows.specs.Searches.{IsSearch};
ghost use Rattle.least_rows.specs.Steps.{most_out, OffersLeaf};
ghost use Rattle.bar_view.specs.declared.leaf.Leaf.{Leaf};
ghost use Rattle.std.specs.Prelude.{◌≡◌, ◌<◌, ◌≤◌, ◌^◌, ℕ, None, Some, length};

use crate::choice::{Choice, Choices, RULE};
use crate::search::Search;
use bar_view::Leaf;
use grammar_plan::{LeafRule, Seat};
use rhythm_base::Carry;

/// The choice of a leaf that the rule ends.
#[inline(always)]
fn leaf_choice(rule: LeafRule, charges: u64) -> Choice
    requires { charges < 2 ^ 60 }
    ensures { result ≡ choice_of_leaf rule charges }
{
    Choice {
        cost: u64::from(rule.weight) + charges,
        order: u64::from(rule.rule) * RULE,
        cut: None,
        way: 0,
    }
}

/// Offers the leaf of a seat, with `from` chords carried in, where a rule ends it.
#[inline(always)]
fn offer_one(best: &mut Choices, search: &Search<'_>, seat: &Seat, leaf: Leaf, from: Carry)
    requires search { IsSearch search.now }
    requires none { (b : ℕ) → b < 5 → choice_in best.old b ≡ None }
    requires symbol { seat.now.symbol < length search.now.plan.now.leaves.items }
    requires leaf { (leaf.own ≤ 4) × (leaf.next ≤ 4) × (leaf.charges < 2 ^ 60) }
    ensures { OffersLeaf search.now seat.now (Some leaf) from best.new }
{
    let count = from.count() + leaf.own;
    match search.plan.leaf(search.grammar, seat, count, leaf.sounds) {
        None => {}
        Some(rule) => best[leaf.next as usize] = Some(leaf_choice(rule, leaf.charges)),
    }
}

/// Offers the leaf of a seat, with `from` chords carried in, where it has one.
#[inline(always)]
pub fn offer_leaf(
    best: &mut Choices,
    search: &Search<'_>,
    seat: &Seat,
    leaf: Option<Leaf>,
    from: Carry,
)
    requires search { IsSearch search.now }
    requires none { (b : ℕ) → b < 5 → choice_in best.old b ≡ None }
    requires symbol { seat.now.symbol < length search.now.plan.now.leaves.items }
    requires leaf { (l : Leaf) → leaf ≡ Some l → (l.own ≤ 4) × (l.next ≤ 4) × (l.charges < 2 ^ 60) }
    ensures { OffersLeaf search.now seat.now leaf from best.new }
{
    let _few = from.count();
    match leaf {
        None => {}
        Some(leaf) => offer_one(best, search, seat, leaf, from),
    }
}

/// How many chords may be carried out of the trees over the interval of the leaf.
#[inline(always)]
pub fn most_out(leaf: Option<Leaf>) -> u8
    ensures { result ≡ most_out leaf }
{
    match leaf {
        None => 4,
        Some(leaf) => leaf.next,
    }
}
