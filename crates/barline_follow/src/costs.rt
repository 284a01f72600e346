ghost use Rattle.barline_follow.specs.Costs as costs;
ghost use Rattle.std.specs.Prelude.{◌≡◌, ◌<◌, ◌≤◌, ◌^◌, ℕ, All, Some, length};

use crate::heads::Heads;
use least_cost::BarCosts;

/// The lower of two costs, where there are any.
fn lower(one: Option<u64>, other: Option<u64>) -> Option<u64>
    ensures { result ≡ costs.lower one other }
{
    match (one, other) {
        (Some(a), Some(b)) => Some(a.min(b)),
        (Some(a), None) => Some(a),
        (None, b) => b,
    }
}

/// The sum of two costs, where both are there.
fn sum(one: Option<u64>, other: Option<u64>) -> Option<u64>
    requires left { (c : ℕ) → one ≡ Some c → c < 2 ^ 63 }
    requires right { (c : ℕ) → other ≡ Some c → c < 2 ^ 63 }
    ensures { result ≡ costs.sum one other }
{
    match (one, other) {
        (Some(a), Some(b)) => Some(a + b),
        _ => None,
    }
}

/// The least cost with a bar more, where so many chords leave it.
fn least_to(heads: &Heads, bar: &BarCosts, to: usize) -> Option<u64>
    requires few { to < 5 }
    requires low { costs.AreLowHeads heads.now }
    requires low_bar { costs.AreLowCosts bar.now.costs }
    ensures { result ≡ costs.least_of_five (λ from. costs.sum (costs.head_cost_at heads.now.costs from) (costs.bar_cost_at bar.now.costs from to)) }
{
    let mut least = None;
    'counts: for from in 0..5usize {
        let own = sum(heads.costs[from], bar.costs[from][to]);
        least = lower(least, own);
    }
    least
}

/// The numbers of chords that may enter a bar after these costs.
pub fn asked_after(heads: &Heads) -> [bool; 5]
    ensures { result ≡ costs.asked_after heads.now.costs }
{
    let costs = &heads.costs;
    [
        costs[0].is_some(),
        costs[1].is_some(),
        costs[2].is_some(),
        costs[3].is_some(),
        costs[4].is_some(),
    ]
}

/// The costs with a bar of these costs more.
pub fn with_bar(heads: &Heads, bar: &BarCosts) -> Heads
    requires low { costs.AreLowHeads heads.now }
    requires low_bar { costs.AreLowCosts bar.now.costs }
    ensures { result.costs ≡ costs.costs_with_bar heads.now.costs bar.now.costs }
{
    let first = least_to(heads, bar, 0);
    let second = least_to(heads, bar, 1);
    let third = least_to(heads, bar, 2);
    let fourth = least_to(heads, bar, 3);
    let fifth = least_to(heads, bar, 4);
    Heads {
        costs: [first, second, third, fourth, fifth],
    }
}

/// The least of the costs.
fn least_of(heads: &Heads) -> Option<u64>
    ensures { result ≡ costs.least_of_five (costs.head_cost_at heads.now.costs) }
{
    let mut least = None;
    'counts: for count in 0..5usize {
        least = lower(least, heads.costs[count]);
    }
    least
}

/// What a voice costs: in a closed list where no chord leaves, and else the least.
fn own_cost(is_closed: bool, heads: &Heads) -> Option<u64>
    ensures { result ≡ costs.own_cost is_closed heads.now }
{
    if is_closed {
        heads.costs[0]
    } else {
        least_of(heads)
    }
}

/// What the voices cost together, where each has a cost.
pub fn total(is_closed: bool, voices: &[Heads]) -> Option<u64>
    requires few { length voices.now ≤ 16 }
    requires low { All costs.AreLowHeads voices.now }
    ensures value { result ≡ costs.total is_closed voices.now }
    ensures low { (c : ℕ) → result ≡ Some c → c ≤ 2 ^ 56 }
{
    let mut sum: u64 = 0;
    'voices: for heads in voices {
        sum += own_cost(is_closed, heads)?;
    }
    Some(sum)
}
