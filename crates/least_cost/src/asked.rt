ghost use Rattle.grammar_plan.specs.Plans.{HasSeat, IsPlan};
ghost use Rattle.least_cost.specs.Costs.{AreCostsOf};
ghost use Rattle.rhythm_base.specs.Readable.{IsReadable};
ghost use Rattle.row_laws.specs.Grounds.{IsReady};
ghost use Rattle.std.specs.Prelude.{◌≡◌, None, IfOk};

use crate::costs::{BarCosts, costs_in};
use crate::steps::Leave;
use best_trees::least_trees;
use grammar_plan::Plan;
use least_rows::{Room, quiet_of};
use rhythm_base::{BarInput, Grammar};
use std::alloc::{AllocError, Global};

/// What the least trees of one bar of one voice cost, for the numbers of chords carried in that are asked for, by a plan of the
/// grammar, in a room that is kept from bar to bar. A bar with a pin is built without them. It counts as a build, as a table does.
pub fn build_costs(
    _leave: Leave,
    alloc: Global,
    grammar: &Grammar,
    plan: &Plan,
    room: &mut Room,
    input: &BarInput,
    asked: [bool; 5],
) -> Result<BarCosts, AllocError>
    requires readable { IsReadable grammar.now }
    requires units { input.now.resolution ≡ grammar.now.resolution }
    requires plan { IsPlan grammar.now plan.now }
    ensures { IfOk result (λ c. AreCostsOf grammar.now input.now asked c.costs) }
{
    // An accessor's contract tells that the input is well formed.
    let _start = input.start();
    if input.pin().is_some() {
        return pinned_costs(alloc, grammar, input, asked);
    }
    match plan.root(grammar, input.start()) {
        Some(root) => costs_by_rows(grammar, plan, room, input, root, asked),
        None => pinned_costs(alloc, grammar, input, asked),
    }
}

/// The costs of a bar without a pin, whose root symbol has this seat in the plan.
fn costs_by_rows(
    grammar: &Grammar,
    plan: &Plan,
    room: &mut Room,
    input: &BarInput,
    root: u32,
    asked: [bool; 5],
) -> Result<BarCosts, AllocError>
    requires ready { IsReady grammar.now input.now }
    requires plan { IsPlan grammar.now plan.now }
    requires root { HasSeat plan.now root (input.now.resolution, input.now.symbol) }
    requires pin { input.now.pin ≡ None }
    ensures { IfOk result (λ c. AreCostsOf grammar.now input.now asked c.costs) }
{
    if let Some(quiet) = quiet_of(input) {
        let trees = room.quiet_trees(grammar, plan, input, quiet, root)?;
        return Ok(costs_in(&trees.bests, asked));
    }
    room.search_asked(grammar, plan, input, root, asked)?;
    let bests = &room.trees.bests;
    Ok(costs_in(bests, asked))
}

/// The costs of a bar, with a pin or without.
fn pinned_costs(
    alloc: Global,
    grammar: &Grammar,
    input: &BarInput,
    asked: [bool; 5],
) -> Result<BarCosts, AllocError>
    requires ready { IsReady grammar.now input.now }
    ensures { IfOk result (λ c. AreCostsOf grammar.now input.now asked c.costs) }
{
    let trees = least_trees(alloc, grammar, input)?;
    Ok(costs_in(&trees.bests, asked))
}
