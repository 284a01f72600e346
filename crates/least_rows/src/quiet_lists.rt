ghost use Rattle.grammar_plan.specs.Plans.{HasQuietTree, IsPlan};
ghost use Rattle.grammar_plan.specs.Drafts.{IsLonger};
ghost use Rattle.std.specs.Prelude.{◌<◌, OnOk, Some, length};
ghost use Rattle.least_rows.specs.QuietLists.{IsCutOfSeat, WritesQuiet, WritesQuietCut};

use crate::quiet_tree::least_quiet;
use grammar_plan::{Plan, QuietTree};
use rhythm_base::{Carry, Grammar};
use row_laws::Quiet;
use std::alloc::{AllocError, Global};

/// Writes the rules of the least tree of a seat over an interval that is quiet so, with `from` chords carried in.
#[cycle(quiet_lists)]
#[inline(always)]
pub fn write_quiet(
    grammar: &Grammar,
    plan: &Plan,
    quiet: Quiet,
    seat: u32,
    from: Carry,
    list: &mut Vec<u16>,
) -> Result<(), AllocError>
    requires plan { IsPlan grammar.now plan.now }
    requires seat { seat < length plan.now.seats.items }
    ensures grows { OnOk result (IsLonger list.old.items list.new.items) }
    ensures list { OnOk result (WritesQuiet grammar.now plan.now quiet seat from list.old.items list.new.items) }
{
    match least_quiet(grammar, plan, seat, quiet, from) {
        None => Ok(()),
        Some(tree) => write_tree(grammar, plan, quiet, tree, seat, from, list),
    }
}

/// The same of that tree. Where it is a leaf, its rule is all.
#[cycle(quiet_lists)]
#[inline(always)]
pub fn write_tree(
    grammar: &Grammar,
    plan: &Plan,
    quiet: Quiet,
    tree: QuietTree,
    seat: u32,
    from: Carry,
    list: &mut Vec<u16>,
) -> Result<(), AllocError>
    requires plan { IsPlan grammar.now plan.now }
    requires seat { seat < length plan.now.seats.items }
    requires tree { HasQuietTree grammar.now plan.now seat quiet from (Some tree) }
    ensures grows { OnOk result (IsLonger list.old.items list.new.items) }
    ensures list { OnOk result (WritesQuiet grammar.now plan.now quiet seat from list.old.items list.new.items) }
{
    list.push(tree.rule)?;
    match tree.cut {
        None => Ok(()),
        Some(number) => write_quiet_parts(grammar, plan, quiet, number, seat, from, list),
    }
}

/// Writes the rules of the least trees of the parts of a cut of a seat over such an interval.
#[cycle(quiet_lists)]
#[inline(never)]
fn write_quiet_parts(
    grammar: &Grammar,
    plan: &Plan,
    quiet: Quiet,
    number: u32,
    seat: u32,
    from: Carry,
    list: &mut Vec<u16>,
) -> Result<(), AllocError>
    requires plan { IsPlan grammar.now plan.now }
    requires seat { seat < length plan.now.seats.items }
    requires number { number < length plan.now.cuts.items }
    requires cut { IsCutOfSeat grammar.now plan.now seat number }
    ensures grows { OnOk result (IsLonger list.old.items list.new.items) }
    ensures list { OnOk result (WritesQuietCut grammar.now plan.now quiet number from list.old.items list.new.items) }
{
    let cut = &plan.cuts[number as usize];
    let mut carried = from;
    'parts: for part in cut.first..cut.end {
        write_quiet(
            grammar,
            plan,
            quiet,
            plan.parts[part as usize],
            carried,
            list,
        )?;
        carried = Carry::none();
    }
    Ok(())
}
