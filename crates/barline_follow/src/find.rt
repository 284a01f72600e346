ghost use Rattle.bar_pool.specs.Costs.{AreAllCosts};
ghost use Rattle.barline_follow.specs.Barring.{barring_end};
ghost use Rattle.barline_follow.specs.Costs.{AreLowCosts, AreLowHeads, costs_with_bar};
ghost use Rattle.barline_follow.specs.Gathered.{found_of, going_in};
ghost use Rattle.barline_follow.specs.NextBars.{IsNextBar, IsCourseOf, IsTried, asked_cells};
ghost use Rattle.barline_follow.specs.Rounds.{IsFound, at_cost, with_bar};
ghost use Rattle.barline_follow.specs.declared.heads.Heads.{Heads};
ghost use Rattle.rhythm_base.specs.declared.limits.TheConstants.{LATEST_TICK};
ghost use Rattle.std.specs.List.{zip};
ghost use Rattle.std.specs.Prelude.{◌≡◌, ◌+◌, ◌<◌, ◌≤◌, ◌^◌, All, IfOk, map};

use crate::barring::{Barring, Course};
use crate::costs::{total, with_bar};
use crate::heads::Heads;
use crate::next_bar::NextBar;
use crate::offers::Offer;
use crate::round::Outcome;
use least_cost::BarCosts;
use std::alloc::{AllocError, Global};

/// The heads of each voice with a bar more, of these costs.
pub fn heads_with(
    alloc: Global,
    heads: &[Heads],
    costs: &[BarCosts],
) -> Result<Vec<Heads>, AllocError>
    requires low { All AreLowHeads heads.now }
    requires low_bars { All (λ bar. AreLowCosts bar.costs) costs.now }
    ensures { IfOk result (λ v. map (λ h. h.costs) v.items ≡ map (λ pair. costs_with_bar pair.0.costs pair.1.costs) (zip heads.now costs.now)) }
{
    let count = heads.len().min(costs.len());
    let mut longer = Vec::with_capacity(alloc, count)?;
    'voices: for voice in 0..count {
        longer.push(with_bar(&heads[voice], &costs[voice]))?;
    }
    Ok(longer)
}

/// The barlines with one more.
fn longer(alloc: Global, barring: &Barring, offer: Offer, cost: u64) -> Result<Barring, AllocError>
    requires early { barring_end barring.now + offer.ticks ≤ LATEST_TICK }
    requires low { cost + (barring.now.prices + offer.price) < 2 ^ 64 }
    ensures { IfOk result (λ b. b ≡ at_cost (with_bar barring.now offer) cost) }
{
    let mut ticks = barring.ticks().to_vec(alloc)?;
    ticks.push(barring.end() + offer.ticks)?;
    Ok(Barring::of(ticks, barring.prices() + offer.price, cost))
}

/// What a list of the front comes to with a bar more, by the costs of this bar.
pub fn find(
    alloc: Global,
    next: &NextBar,
    course: &Course,
    offer: Offer,
    costs: &[BarCosts],
) -> Result<Outcome, AllocError>
    requires next { IsNextBar next.now }
    requires course { IsCourseOf next.now next.now.number course.now }
    requires tried { IsTried next.now (barring_end course.now.barring) offer }
    requires costs { AreAllCosts next.now.grammar.now (asked_cells next.now course.now offer) costs.now }
    ensures found { IfOk result (λ o. IsFound next.now.grammar.now next.now.performance.now (with_bar course.now.barring offer) (found_of o)) }
    ensures going { IfOk result (λ o. All (IsCourseOf next.now (next.now.number + 1)) (going_in o)) }
{
    let heads = heads_with(alloc, course.heads(), costs)?;
    let is_closed = next.closing <= course.barring().end() + offer.ticks;
    let Some(cost) = total(is_closed, heads.as_slice()) else {
        return Ok(Outcome::Lost);
    };
    let barring = longer(alloc, course.barring(), offer, cost)?;
    if is_closed {
        Ok(Outcome::Whole(barring))
    } else {
        Ok(Outcome::Going(Course::of(barring, heads)))
    }
}
