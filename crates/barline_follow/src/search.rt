ghost use Rattle.bar_pool.specs.Pool.{RisesWithin};
ghost use Rattle.barline_follow.specs.Builds.{most_lists, most_tables};
ghost use Rattle.barline_follow.specs.NextBars.{AreBuiltInRoundOf, IsCourseOf, IsNextBar, IsRoundOf};
ghost use Rattle.barline_follow.specs.Rounds.{IsBest};
ghost use Rattle.barline_follow.specs.Searched.{AreBuiltInSearch};
ghost use Rattle.barline_follow.specs.Courses.{first_course};
ghost use Rattle.edit_session.specs.Prepared.{RisesBy};
ghost use Rattle.grammar_plan.specs.Plans.{IsPlan};
ghost use Rattle.rhythm_base.specs.Readable.{IsReadable};
ghost use Rattle.std.specs.Prelude.{◌≡◌, ◌+◌, ◌*◌, ◌≤◌, [], ◌∷◌, All, IfOk, OnOk, length};

use crate::barring::{Barring, Course};
use crate::crew::Crew;
use crate::gather::gather;
use crate::heads::Heads;
use crate::longer::longer_lists;
use crate::next_bar::{NextBar, bar_like, closing_tick};
use crate::tried::front_tried;
use crate::voice::voices_of;
use bar_cut::check_starts;
use bar_pool::Rooms;
use grammar_plan::Plan;
use least_cost::Steps as Builds;
use rhythm_base::{Grammar, Performance, Tag};
use rhythm_ports::{Gate, Means};
use std::alloc::{AllocError, Global};
use std::thread::Threads;

/// The front of no bar, for so many voices.
fn first_front(alloc: Global, voices: usize) -> Result<Vec<Course>, AllocError>
    ensures { IfOk result (λ v. v.items ≡ first_course voices ∷ []) }
{
    let ticks = Vec::from_array(alloc, [0u64])?;
    let start = Heads {
        costs: [Some(0), None, None, None, None],
    };
    let mut heads = Vec::with_capacity(alloc, voices)?;
    'voices: for _voice in 0..voices {
        heads.push(start)?;
    }
    let barring = Barring::of(ticks, 0, 0);
    let mut front = Vec::new(alloc);
    front.push(Course::of(barring, heads))?;
    Ok(front)
}

/// The next front and the best.
fn next_round<R: Threads + Sync, G: Gate + Sync, B: Tag>(
    means: &Means<'_, R, G>,
    next: &NextBar,
    front: &[Course],
    best: Option<Barring>,
    crew: &Crew<'_>,
    rooms: &mut Rooms,
    builds: &mut Builds<B>,
) -> Result<(Vec<Course>, Option<Barring>), AllocError>
    requires next { IsNextBar next.now }
    requires front { All (IsCourseOf next.now next.now.number) front.now }
    requires few_lists { length front.now ≤ most_lists next.now.number }
    requires plan { IsPlan next.now.grammar.now crew.now.plan.now }
    ensures round { IfOk result (λ r. IsRoundOf next.now front.now best r.0.items r.1) }
    ensures courses { IfOk result (λ r. All (IsCourseOf next.now (next.now.number + 1)) r.0.items) }
    ensures lists { IfOk result (λ r. length r.0.items ≤ 24) }
    ensures builds { OnOk result (RisesBy builds.old builds.new (AreBuiltInRoundOf next.now front.now)) }
    ensures most { RisesWithin builds.old builds.new (24 * 14 * length next.now.voices.now) }
{
    let tried = front_tried(means.alloc, next, front)?;
    let lists = longer_lists(means.alloc, front, tried.as_slice())?;
    let round = gather(means, next, lists, best, crew, rooms, builds)?;
    Ok(round.close())
}

/// The best barlines for a performance by a grammar; none where no list is whole. The cells of a round are built by up to so many
/// workers, one at least, each once, and only their costs. Those of a list that changes nothing of the round are counted with them,
/// and not built.
pub fn best_barlines<R: Threads + Sync, G: Gate + Sync, B: Tag>(
    means: &Means<'_, R, G>,
    grammar: &Grammar,
    performance: &Performance,
    workers: u32,
    builds: &mut Builds<B>,
) -> Result<Option<Barring>, AllocError>
    requires readable { IsReadable grammar.now }
    ensures best { IfOk result (λ best. IsBest grammar.now performance.now best) }
    ensures builds { OnOk result (RisesBy builds.old builds.new (AreBuiltInSearch grammar.now performance.now)) }
    ensures most { RisesWithin builds.old builds.new (most_tables performance.now) }
{
    let plan = Plan::of(means.alloc, grammar)?;
    let crew = Crew {
        plan: &plan,
        workers,
    };
    let closing = closing_tick(performance.notes());
    let voices = voices_of(means.alloc, grammar, performance)?;
    let mut front = first_front(means.alloc, voices.len())?;
    let mut best = None;
    let mut rooms = Rooms::new(means.alloc);
    'rounds: for number in 0..2 * performance.bars().len() {
        if front.is_empty() {
            return Ok(best);
        }
        let like = bar_like(performance, number);
        let next = NextBar {
            grammar,
            performance,
            voices: voices.as_slice(),
            number,
            like,
            is_rooted: check_starts(grammar, &[like]).is_ok(),
            closing,
        };
        let lists = front.as_slice();
        let (longer, longer_best) = next_round(
            means, &next, lists, best, &crew, &mut rooms, builds,
        )?;
        front = longer;
        best = longer_best;
    }
    Ok(best)
}
