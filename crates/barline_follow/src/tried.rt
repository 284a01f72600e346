ghost use Rattle.barline_follow.specs.NextBars.{AreTriedOffers, IsNextBar, IsCourseOf};
ghost use Rattle.rhythm_base.specs.Lists.{Each};
ghost use Rattle.std.specs.Prelude.{All, IfOk, map};

use crate::barring::Course;
use crate::next_bar::NextBar;
use crate::offers::{Offer, offers};
use rhythm_base::LATEST_TICK;
use std::alloc::{AllocError, Global};

/// What is tried of a list: those bars of its offers that can be.
fn tried_of(alloc: Global, next: &NextBar, course: &Course) -> Result<Vec<Offer>, AllocError>
    requires next { IsNextBar next.now }
    requires course { IsCourseOf next.now next.now.number course.now }
    ensures { IfOk result (λ v. AreTriedOffers next.now course.now v.items) }
{
    let before = course.barring().last_length();
    let mut offers = offers(alloc, next.grammar, next.performance, next.number, before)?;
    let is_rooted = next.is_rooted;
    let most = LATEST_TICK - course.barring().end();
    offers.retain(|offer| is_rooted && offer.ticks <= most);
    Ok(offers)
}

/// What is tried of each list of a front.
pub fn front_tried(
    alloc: Global,
    next: &NextBar,
    front: &[Course],
) -> Result<Vec<Vec<Offer>>, AllocError>
    requires next { IsNextBar next.now }
    requires front { All (IsCourseOf next.now next.now.number) front.now }
    ensures { IfOk result (λ v. Each (AreTriedOffers next.now) front.now (map (λ own. own.items) v.items)) }
{
    let mut all = Vec::with_capacity(alloc, front.len())?;
    'lists: for course in front {
        all.push(tried_of(alloc, next, course)?)?;
    }
    Ok(all)
}
