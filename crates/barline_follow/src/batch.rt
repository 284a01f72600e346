ghost use Rattle.bar_pool.specs.Costs.{AreAllCosts};
ghost use Rattle.bar_pool.specs.Pool.{RisesWithin};
ghost use Rattle.bar_pool.specs.declared.order.AskedCell.{AskedCell};
ghost use Rattle.barline_follow.specs.Gathered.{Round};
ghost use Rattle.barline_follow.specs.Longer.{draft_of};
ghost use Rattle.barline_follow.specs.NextBars.{IsNextBar};
ghost use Rattle.barline_follow.specs.PassedOver.{IsWeighed, cells_in};
ghost use Rattle.barline_follow.specs.declared.next_bar.NextBar.{NextBar};
ghost use Rattle.grammar_plan.specs.Plans.{IsPlan};
ghost use Rattle.rhythm_base.specs.Counter.{risen};
ghost use Rattle.std.specs.List.{flat_map};
ghost use Rattle.std.specs.Prelude.{◌≡◌, ◌+◌, ◌*◌, ◌<◌, ◌≤◌, ◌++◌, ℕ, List, All, IfOk, OnOk, false, length, map};

use crate::cells::push_cell;
use crate::crew::Crew;
use crate::longer::Longer;
use crate::next_bar::NextBar;
use crate::round::Round;
use crate::weigh::weigh;
use bar_pool::{AskedCell, CostOrder, Rooms, build_all_costs};
use least_cost::{BarCosts, Steps as Builds};
use rhythm_base::Tag;
use rhythm_ports::{Gate, Means};
use std::alloc::{AllocError, Global};
use std::thread::Threads;

/// The cells in a voice of those lists that are not passed over. Which are is weighed before, by the round so far.
fn voice_cells(
    alloc: Global,
    next: &NextBar,
    round: &Round,
    voice: usize,
    lists: &mut [Longer<'_>],
) -> Result<Vec<AskedCell>, AllocError>
    requires next { IsNextBar next.now }
    requires voice { voice < length next.now.voices.now }
    requires weighed { All (IsWeighed next.now round.now voice) lists.old }
    ensures weighed { OnOk result (All (IsWeighed next.now round.now voice) lists.new) }
    ensures drafts { OnOk result (map draft_of lists.new ≡ map draft_of lists.old) }
    ensures cells { IfOk result (λ v. v.items ≡ flat_map (cells_in next.now voice) lists.new) }
{
    let mut cells = Vec::new(alloc);
    'lists: for list in lists.iter_mut() {
        weigh(alloc, next, round, list)?;
        push_cell(alloc, next, voice, list, &mut cells)?;
    }
    Ok(cells)
}

/// Lets a list learn the first of the costs, if it is not passed over, and gives the others.
fn take_cost<'c>(list: &mut Longer<'_>, costs: &'c [BarCosts]) -> Result<&'c [BarCosts], AllocError>
    requires some { list.old.is_out ≡ false → 1 ≤ length costs.now }
    ensures taken { (next : NextBar) (round : Round) (v : ℕ) (rest : List AskedCell) → v < length next.voices.now
        → IsWeighed next round v list.old → AreAllCosts next.grammar.now (cells_in next v list.old ++ rest) costs.entry.now
        → IfOk result (λ left. AreAllCosts next.grammar.now rest left.now × IsWeighed next round (v + 1) list.new) }
    ensures draft { OnOk result (draft_of list.new ≡ draft_of list.old) }
{
    if list.is_out() {
        return Ok(costs);
    }
    let (own, later) = costs.split_at(1);
    list.learn(own[0])?;
    Ok(later)
}

/// Lets those lists learn their costs in a voice that are not passed over.
fn take_costs(lists: &mut [Longer<'_>], costs: &[BarCosts]) -> Result<(), AllocError>
    requires { (next : NextBar) × (round : Round) × (v : ℕ) × (v < length next.voices.now) × All (IsWeighed next round v) lists.old
        × AreAllCosts next.grammar.now (flat_map (cells_in next v) lists.old) costs.now }
    ensures weighed { (next : NextBar) (round : Round) (v : ℕ) → v < length next.voices.now → All (IsWeighed next round v) lists.old
        → AreAllCosts next.grammar.now (flat_map (cells_in next v) lists.old) costs.now
        → OnOk result (All (IsWeighed next round (v + 1)) lists.new) }
    ensures drafts { OnOk result (map draft_of lists.new ≡ map draft_of lists.old) }
{
    let mut left = costs;
    'lists: for list in lists.iter_mut() {
        left = take_cost(list, left)?;
    }
    Ok(())
}

/// Counts the cells that are passed over.
fn count_passed<B: Tag>(builds: &mut Builds<B>, count: usize)
    ensures { builds.new ≡ risen builds.old count }
{
    'cells: for _cell in 0..count {
        let _leave = builds.leave();
    }
}

/// Looks for what the bars of lists cost, voice after voice. A list that changes nothing of the round, as far as is known, is passed
/// over: its cells are counted, and not built.
pub fn cost_lists<R: Threads + Sync, G: Gate + Sync, B: Tag>(
    means: &Means<'_, R, G>,
    next: &NextBar,
    round: &Round,
    lists: &mut [Longer<'_>],
    crew: &Crew<'_>,
    rooms: &mut Rooms,
    builds: &mut Builds<B>,
) -> Result<(), AllocError>
    requires next { IsNextBar next.now }
    requires plan { IsPlan next.now.grammar.now crew.now.plan.now }
    requires weighed { All (IsWeighed next.now round.now 0) lists.old }
    ensures weighed { OnOk result (All (IsWeighed next.now round.now (length next.now.voices.now)) lists.new) }
    ensures drafts { OnOk result (map draft_of lists.new ≡ map draft_of lists.old) }
    ensures builds { OnOk result (builds.new ≡ risen builds.old (length next.now.voices.now * length lists.old)) }
    ensures most { RisesWithin builds.old builds.new (length next.now.voices.now * length lists.old) }
{
    'voices: for voice in 0..next.voices.len() {
        let cells = voice_cells(means.alloc, next, round, voice, lists)?;
        let asked = cells.as_slice();
        let order = CostOrder {
            grammar: next.grammar,
            plan: crew.plan,
            cells: asked,
        };
        let costs = build_all_costs(means, &order, crew.workers, rooms, builds)?;
        count_passed(builds, lists.len() - asked.len());
        take_costs(lists, costs.as_slice())?;
    }
    Ok(())
}
