ghost use Rattle.grammar_plan.specs.Plans.{HasSeat, IsPlan};
ghost use Rattle.least_cost.specs.Tables.{AreCellTrees};
ghost use Rattle.rhythm_base.specs.BarTables.{IsTable};
ghost use Rattle.rhythm_base.specs.Counter.{risen};
ghost use Rattle.rhythm_base.specs.Readable.{IsReadable};
ghost use Rattle.row_laws.specs.Grounds.{IsReady, ground_of};
ghost use Rattle.row_laws.specs.QuietTrees.{IsQuiet};
ghost use Rattle.std.specs.Prelude.{◌≡◌, None, IfOk};

use crate::kept_rules::KeptRules;
use crate::steps::{Leave, Steps};
use crate::table::BarTable;
use bar_trees::BarBests;
use best_trees::least_trees;
use carry_matrix::CarryMatrix;
use grammar_plan::Plan;
use least_rows::{Room, quiet_of};
use rhythm_base::{BarInput, Grammar, Tag};
use row_laws::Quiet;
use std::alloc::{AllocError, Global};

/// Builds the table of the least trees of one bar of one voice. It takes one step.
pub fn build_cell<B: Tag>(
    alloc: Global,
    grammar: &Grammar,
    input: &BarInput,
    builds: &mut Steps<B>,
) -> Result<BarTable, AllocError>
    requires readable { IsReadable grammar.now }
    requires units { input.now.resolution ≡ grammar.now.resolution }
    ensures builds { builds.new ≡ risen builds.old 1 }
    ensures input { IfOk result (λ t. t.input ≡ input.now) }
    ensures table { IfOk result (IsTable grammar.now) }
{
    builds.tick();
    // An accessor's contract tells that the input is well formed.
    let _start = input.start();
    if input.pin().is_some() {
        return build_pinned(alloc, grammar, input);
    }
    let plan = Plan::of(alloc, grammar)?;
    build_by_plan(alloc, grammar, &plan, &mut Room::new(alloc), input)
}

/// The same by a plan of the grammar, in a room that is kept from bar to bar. A bar with a pin is built without them.
#[inline(always)]
pub fn build_planned<B: Tag>(
    alloc: Global,
    grammar: &Grammar,
    plan: &Plan,
    room: &mut Room,
    input: &BarInput,
    builds: &mut Steps<B>,
) -> Result<BarTable, AllocError>
    requires readable { IsReadable grammar.now }
    requires units { input.now.resolution ≡ grammar.now.resolution }
    requires plan { IsPlan grammar.now plan.now }
    ensures builds { builds.new ≡ risen builds.old 1 }
    ensures input { IfOk result (λ t. t.input ≡ input.now) }
    ensures table { IfOk result (IsTable grammar.now) }
{
    build_table(builds.leave(), alloc, grammar, plan, room, input)
}

/// The same by the leave of a counter.
#[inline(always)]
pub fn build_table(
    _leave: Leave,
    alloc: Global,
    grammar: &Grammar,
    plan: &Plan,
    room: &mut Room,
    input: &BarInput,
) -> Result<BarTable, AllocError>
    requires readable { IsReadable grammar.now }
    requires units { input.now.resolution ≡ grammar.now.resolution }
    requires plan { IsPlan grammar.now plan.now }
    ensures input { IfOk result (λ t. t.input ≡ input.now) }
    ensures table { IfOk result (IsTable grammar.now) }
{
    // An accessor's contract tells that the input is well formed.
    let _start = input.start();
    if input.pin().is_some() {
        return build_pinned(alloc, grammar, input);
    }
    build_by_plan(alloc, grammar, plan, room, input)
}

/// The table of a bar without a pin. A symbol that is the root of no start may have no seat in the plan: such a bar is searched as
/// one with a pin.
#[inline(always)]
fn build_by_plan(
    alloc: Global,
    grammar: &Grammar,
    plan: &Plan,
    room: &mut Room,
    input: &BarInput,
) -> Result<BarTable, AllocError>
    requires ready { IsReady grammar.now input.now }
    requires plan { IsPlan grammar.now plan.now }
    requires pin { input.now.pin ≡ None }
    ensures input { IfOk result (λ t. t.input ≡ input.now) }
    ensures table { IfOk result (IsTable grammar.now) }
{
    match plan.root(grammar, input.start()) {
        Some(root) => build_by_rows(alloc, grammar, plan, room, input, root),
        None => build_pinned(alloc, grammar, input),
    }
}

/// The table of a bar without a pin, whose root symbol has this seat in the plan.
fn build_by_rows(
    alloc: Global,
    grammar: &Grammar,
    plan: &Plan,
    room: &mut Room,
    input: &BarInput,
    root: u32,
) -> Result<BarTable, AllocError>
    requires ready { IsReady grammar.now input.now }
    requires plan { IsPlan grammar.now plan.now }
    requires root { HasSeat plan.now root (input.now.resolution, input.now.symbol) }
    requires pin { input.now.pin ≡ None }
    ensures input { IfOk result (λ t. t.input ≡ input.now) }
    ensures table { IfOk result (IsTable grammar.now) }
{
    if let Some(quiet) = quiet_of(input) {
        return build_quiet(alloc, grammar, plan, room, input, quiet, root);
    }
    room.search(grammar, plan, input, root)?;
    let trees = &room.trees;
    let lists = &trees.lists;
    table_of(
        alloc,
        grammar,
        input,
        &trees.bests,
        lists.rules.as_slice(),
        lists.ends,
    )
}

/// The table of a bar that is quiet so as a whole, without a pin, whose root symbol has this seat in the plan.
#[inline(always)]
fn build_quiet(
    alloc: Global,
    grammar: &Grammar,
    plan: &Plan,
    room: &mut Room,
    input: &BarInput,
    quiet: Quiet,
    root: u32,
) -> Result<BarTable, AllocError>
    requires ready { IsReady grammar.now input.now }
    requires plan { IsPlan grammar.now plan.now }
    requires root { HasSeat plan.now root (input.now.resolution, input.now.symbol) }
    requires quiet { IsQuiet quiet (ground_of grammar.now input.now) 0 input.now.resolution }
    requires pin { input.now.pin ≡ None }
    ensures input { IfOk result (λ t. t.input ≡ input.now) }
    ensures table { IfOk result (IsTable grammar.now) }
{
    let trees = room.quiet_trees(grammar, plan, input, quiet, root)?;
    let rules = room.trees.lists.rules.as_slice();
    table_of(alloc, grammar, input, &trees.bests, rules, trees.ends)
}

/// The table of a bar, with a pin or without.
fn build_pinned(alloc: Global, grammar: &Grammar, input: &BarInput) -> Result<BarTable, AllocError>
    requires ready { IsReady grammar.now input.now }
    ensures input { IfOk result (λ t. t.input ≡ input.now) }
    ensures table { IfOk result (IsTable grammar.now) }
{
    let trees = least_trees(alloc, grammar, input)?;
    let lists = &trees.lists;
    table_of(
        alloc,
        grammar,
        input,
        &trees.bests,
        lists.rules.as_slice(),
        lists.ends,
    )
}

/// The table of these least trees of a bar, whose rule lists end there.
#[inline(always)]
fn table_of(
    alloc: Global,
    grammar: &Grammar,
    input: &BarInput,
    bests: &BarBests,
    rules: &[u16],
    ends: [u16; 25],
) -> Result<BarTable, AllocError>
    requires ready { IsReady grammar.now input.now }
    requires trees { AreCellTrees grammar.now input.now bests.now.rows rules.now ends }
    ensures input { IfOk result (λ t. t.input ≡ input.now) }
    ensures table { IfOk result (IsTable grammar.now) }
{
    let own = KeptRules::keep(alloc, rules)?;
    let kept = input.copy(alloc)?;
    let matrix = CarryMatrix::make(bests.rows);
    Ok(BarTable::of(matrix, own, ends, kept))
}
