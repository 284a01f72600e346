ghost use Rattle.bar_pool.specs.Costs.{AreAllCosts};
ghost use Rattle.barline_follow.specs.Longer.{draft_of};
ghost use Rattle.barline_follow.specs.NextBars.{IsNextBar, asked_cells};
ghost use Rattle.barline_follow.specs.PassedOver.{IsLonger, IsPassedOver, IsWeighed};
ghost use Rattle.std.specs.Prelude.{◌≡◌, ℕ, IfOk, take, true};

use crate::costs::total;
use crate::find::heads_with;
use crate::longer::Longer;
use crate::next_bar::NextBar;
use crate::round::Round;
use std::alloc::{AllocError, Global};

/// Whether the list changes nothing of the round, as far as it is known what its bar costs: a voice has no trees, or what its voices
/// cost at least is too much. A voice costs no less than without the bar.
fn changes_nothing(
    alloc: Global,
    next: &NextBar,
    round: &Round,
    list: &Longer<'_>,
) -> Result<bool, AllocError>
    requires next { IsNextBar next.now }
    requires longer { IsLonger next.now list.now }
    requires known { (v : ℕ) × AreAllCosts next.now.grammar.now (take v (asked_cells next.now list.now.course list.now.offer)) list.now.costs }
    ensures { IfOk result (λ is. is ≡ true → IsPassedOver next.now round.now list.now) }
{
    let course = list.course();
    let heads = course.heads();
    let costs = list.costs();
    let price = list.offer().price;
    let end = course.barring().end() + list.offer().ticks;
    let is_closed = next.closing <= end;
    let (_first, others) = heads.split_at(costs.len());
    let known = heads_with(alloc, heads, costs)?;
    let Some(own) = total(is_closed, known.as_slice()) else {
        return Ok(true);
    };
    let Some(rest) = total(false, others) else {
        return Ok(true);
    };
    let low = own + rest + (course.barring().prices() + price);
    Ok(round.rules_out(is_closed, end, low))
}

/// Passes a list over, where it changes nothing of the round.
pub fn weigh(
    alloc: Global,
    next: &NextBar,
    round: &Round,
    list: &mut Longer<'_>,
) -> Result<(), AllocError>
    requires next { IsNextBar next.now }
    requires weighed { (v : ℕ) × IsWeighed next.now round.now v list.old }
    ensures weighed { (v : ℕ) → IsWeighed next.now round.now v list.old → IsWeighed next.now round.now v list.new }
    ensures draft { draft_of list.new ≡ draft_of list.old }
{
    if list.is_out() {
        return Ok(());
    }
    if changes_nothing(alloc, next, round, list)? {
        list.leave_out();
    }
    Ok(())
}
