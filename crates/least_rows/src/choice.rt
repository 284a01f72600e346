ghost use Rattle.least_rows.specs.Choices.{IsAlone, IsEntryOf, IsFirst, greater, left_below, left_of, limit_below, nearer_choice, topped_choice, OffersEntries, TakesFirst};
ghost use Rattle.least_rows.specs.Ways.{AreEntries, IsSmallWay};
ghost use Rattle.row_laws.specs.BestRules.{is_nearer};
ghost use Rattle.std.specs.Prelude.{◌≡◌, ◌+◌, ◌<◌, ◌≤◌, ◌^◌, IfSome, Some};

use crate::entry::Entry;
use crate::way::Way;
use grammar_plan::Cut;
use rhythm_base::Carry;

/// What an entry of a row may become.
#[derive(Clone, Copy)]
pub struct Choice {
    pub cost: u64,
    /// What orders the rule lists of such choices: the rule, times 2 to the power 48, and the order of the way over its parts.
    pub order: u64,
    pub cut: Option<u32>,
    pub way: u64,
}

/// Choices by the number of chords carried out.
pub type Choices = [Option<Choice>; 5];

/// The place of a rule in an order, above 16 digits to the base 8.
pub const RULE: u64 = 281_474_976_710_656;

/// The first costs less than the second, or as much and its rule list comes before.
#[inline(always)]
fn is_nearer(x: &Choice, y: &Choice) -> bool
    ensures { result ≡ is_nearer (x.now.cost, x.now.order) (y.now.cost, y.now.order) }
{
    x.cost < y.cost || (x.cost == y.cost && x.order < y.order)
}

/// Puts a choice into the place where it is nearer than what is there.
#[inline(always)]
pub fn offer(place: &mut Option<Choice>, next: Choice)
    ensures { place.new ≡ nearer_choice place.old (Some next) }
{
    match place {
        Some(best) => {
            if is_nearer(&next, best) {
                *best = next;
            }
        }
        None => *place = Some(next),
    }
}

/// Offers a way over the parts of a cut, with the cut on top.
#[inline(always)]
pub fn offer_way(place: &mut Option<Choice>, way: Way, cut: &Cut, number: u32)
    requires fits { (way.cost ≤ 6000000000) × (way.order < 2 ^ 48) }
    ensures { place.new ≡ nearer_choice place.old (topped_choice cut.now number (Some way)) }
{
    offer(
        place,
        Choice {
            cost: u64::from(cut.weight) + way.cost,
            order: u64::from(cut.rule) * RULE + way.order,
            cut: Some(number),
            way: way.way,
        },
    );
}

/// Offers a way over all parts but the last, out of which `count` chords are carried, with each entry after it of a row that they
/// are carried into.
#[inline(always)]
pub fn offer_entries(
    best: &mut Choices,
    cut: &Cut,
    number: u32,
    way: Way,
    count: Carry,
    entries: &[Entry],
)
    requires low { IsSmallWay way }
    requires entries { AreEntries entries.now }
    ensures { OffersEntries cut.now number way count entries.now best.old best.new }
{
    let cut = *cut;
    let mut rank = 0u8;
    'entries: for entry in entries {
        let whole = way.then(count, entry.cost, rank);
        offer_way(&mut best[entry.to as usize], whole, &cut, number);
        rank += 1;
    }
}

/// What the ways over the parts of a cut may cost at most to come before the choice: what is left of its cost under the weight of
/// the cut, less one where the choice comes first at equal costs, and none where no way comes before it. Without a choice it is
/// more than any way costs.
#[inline(always)]
fn left_of(choice: &Option<Choice>, cut: &Cut) -> Option<u64>
    ensures { result ≡ left_of choice.now cut.now }
{
    let Some(choice) = choice else {
        return Some(u64::MAX);
    };
    let tie = u64::from(choice.order < u64::from(cut.rule) * RULE);
    choice.cost.checked_sub(u64::from(cut.weight) + tie)
}

/// The greatest of these for the choices by which up to `most` chords are carried out. Apart, so that the loops in which it is not
/// called are small.
#[inline(never)]
fn left_of_all(best: &Choices, most: u8, cut: &Cut) -> Option<u64>
    requires { most < 4 }
    ensures { result ≡ left_below best.now (most + 1) cut.now }
{
    let mut limit = None;
    'tos: for to in 0..most + 1 {
        limit = greater(limit, left_of(&best[to as usize], cut));
    }
    limit
}

/// The greater of two limits.
#[inline(always)]
fn greater(x: Option<u64>, y: Option<u64>) -> Option<u64>
    ensures { result ≡ greater x y }
{
    match (x, y) {
        (Some(x), Some(y)) => Some(x.max(y)),
        (None, y) => y,
        (x, None) => x,
    }
}

/// What the ways over the parts of a cut may cost at most for the cut to be offered, where no tree carries more than `most` chords
/// out; none where no way over them comes before what is there. Where 4 may be carried out it is more than any way costs.
#[inline(always)]
pub fn limit_below(best: &Choices, most: u8, cut: &Cut) -> Option<u64>
    ensures { result ≡ limit_below best.now most cut.now }
{
    if most == 0 {
        left_of(&best[0], cut)
    } else if most < 4 {
        left_of_all(best, most, cut)
    } else {
        Some(u64::MAX)
    }
}

/// The one of the lower order: that which is the first below, or the one of this number.
#[inline(always)]
fn earlier(best: &Choices, first: Option<u8>, to: u8) -> Option<u8>
    requires low { to < 5 }
    requires first { IsFirst best.now to first }
    ensures { IsFirst best.now (to + 1) result }
{
    let Some(next) = &best[to as usize] else {
        return first;
    };
    let Some(known) = first else {
        return Some(to);
    };
    match &best[known as usize] {
        Some(choice) if choice.order <= next.order => first,
        _ => Some(to),
    }
}

/// The number of the choice of the lowest order.
fn first_of(best: &Choices) -> Option<u8>
    ensures { IsFirst best.now 5 result }
{
    let mut first = None;
    'tos: for to in 0..5u8 {
        first = earlier(best, first, to);
    }
    first
}

/// The choice as an entry.
#[inline(always)]
fn entry_of(choice: &Choice, to: u8) -> Entry
    ensures { IsEntryOf choice.now to result }
{
    Entry {
        cost: choice.cost,
        to,
        rule: (choice.order / RULE) as u16,
        cut: choice.cut,
        way: choice.way,
    }
}

/// The choice by which none are carried out, as an entry, where there is no other.
#[inline(always)]
pub fn alone(best: &Choices) -> Option<Entry>
    ensures { IfSome result (IsAlone best.now) }
{
    match best {
        [Some(choice), None, None, None, None] => Some(entry_of(choice, 0)),
        _ => None,
    }
}

/// Takes the choice of the lowest order out, as an entry.
pub fn take_first(left: &mut Choices) -> Option<Entry>
    ensures { TakesFirst left.old left.new result }
{
    let to = first_of(left)?;
    let choice = left[to as usize]?;
    left[to as usize] = None;
    Some(entry_of(&choice, to))
}
