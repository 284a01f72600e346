ghost use Rattle.bar_pool.specs.Pool.{RisesWithin};
ghost use Rattle.barline_follow.specs.Gathered.{HasGathered};
ghost use Rattle.barline_follow.specs.Gathering.{GathersAll, GathersMore};
ghost use Rattle.barline_follow.specs.Longer.{draft_of};
ghost use Rattle.barline_follow.specs.NextBars.{IsNextBar};
ghost use Rattle.barline_follow.specs.PassedOver.{IsUntried, IsWeighed};
ghost use Rattle.grammar_plan.specs.Plans.{IsPlan};
ghost use Rattle.rhythm_base.specs.Counter.{risen};
ghost use Rattle.std.specs.Prelude.{◌≡◌, ◌*◌, All, IfOk, OnOk, length, map};

use crate::barring::Barring;
use crate::batch::cost_lists;
use crate::crew::Crew;
use crate::find::find;
use crate::longer::Longer;
use crate::next_bar::NextBar;
use crate::round::Round;
use bar_pool::Rooms;
use least_cost::Steps as Builds;
use rhythm_base::Tag;
use rhythm_ports::{Gate, Means};
use std::alloc::{AllocError, Global};
use std::thread::Threads;

/// Gathers what lists with a bar more come to. Those that are passed over change nothing.
fn add_all(
    alloc: Global,
    next: &NextBar,
    lists: &[Longer<'_>],
    round: &mut Round,
) -> Result<(), AllocError>
    requires next { IsNextBar next.now }
    requires round { HasGathered round.old }
    requires weighed { All (IsWeighed next.now round.old (length next.now.voices.now)) lists.now }
    ensures { GathersMore next.now (map draft_of lists.now) round.old result round.new }
{
    'lists: for list in lists {
        if list.is_out() {
            continue;
        }
        let found = find(alloc, next, list.course(), list.offer(), list.costs())?;
        round.add(found)?;
    }
    Ok(())
}

/// Gathers all lists with a bar more, some of them at a time.
pub fn gather<R: Threads + Sync, G: Gate + Sync, B: Tag>(
    means: &Means<'_, R, G>,
    next: &NextBar,
    lists: Vec<Longer<'_>>,
    best: Option<Barring>,
    crew: &Crew<'_>,
    rooms: &mut Rooms,
    builds: &mut Builds<B>,
) -> Result<Round, AllocError>
    requires next { IsNextBar next.now }
    requires plan { IsPlan next.now.grammar.now crew.now.plan.now }
    requires lists { All (IsUntried next.now) lists.items }
    ensures gathered { IfOk result (GathersAll next.now (map draft_of lists.entry.items) best) }
    ensures builds { OnOk result (builds.new ≡ risen builds.old (length next.now.voices.now * length lists.entry.items)) }
    ensures most { RisesWithin builds.old builds.new (length next.now.voices.now * length lists.entry.items) }
{
    let size = crew.batch();
    let mut round = Round::begin(means.alloc, best);
    let mut batch = lists;
    'batches: while !batch.is_empty() {
        let later = batch.split_off(size.min(batch.len()))?;
        cost_lists(
            means,
            next,
            &round,
            batch.as_mut_slice(),
            crew,
            rooms,
            builds,
        )?;
        add_all(means.alloc, next, batch.as_slice(), &mut round)?;
        batch = later;
    }
    Ok(round)
}
