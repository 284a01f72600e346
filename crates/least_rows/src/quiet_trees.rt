ghost use Rattle.grammar_plan.specs.Plans.{HasSeat, IsPlan};
ghost use Rattle.least_rows.specs.Roots.{AreRootRows, IsOnlyTree, AreRootLists, IsOnlyEnded};
ghost use Rattle.row_laws.specs.Grounds.{IsReady, ground_of};
ghost use Rattle.row_laws.specs.QuietTrees.{IsQuiet};
ghost use Rattle.std.specs.Prelude.{◌≡◌, IfOk, length};

use crate::quiet_lists::write_tree;
use crate::quiet_tree::least_quiet;
use bar_trees::BarBests;
use grammar_plan::Plan;
use rhythm_base::{BarInput, Best, Carry, Grammar};
use row_laws::Quiet;
use std::alloc::AllocError;

/// The least trees of a bar that is quiet as a whole, whose rule lists stand elsewhere.
#[derive(Clone, Copy)]
pub struct QuietTrees {
    pub bests: BarBests,
    /// Where each list ends, as those of written lists.
    pub ends: [u16; 25],
}

/// The only tree of a row over a quiet bar, where there is one: what it costs, and where its rule list ends.
#[derive(Clone, Copy)]
struct OnlyTree {
    best: Option<Best>,
    end: u16,
}

/// Finds the least trees of a bar that is quiet so, whose root symbol has this seat, and writes their rule lists. None of them
/// carries a chord out of the bar. Where the numbers of places have run out, the answer is that there is no memory.
#[inline(always)]
pub fn quiet_trees(
    grammar: &Grammar,
    plan: &Plan,
    input: &BarInput,
    quiet: Quiet,
    root: u32,
    rules: &mut Vec<u16>,
) -> Result<QuietTrees, AllocError>
    requires ready { IsReady grammar.now input.now }
    requires plan { IsPlan grammar.now plan.now }
    requires root { HasSeat plan.now root (input.now.resolution, input.now.symbol) }
    requires quiet { IsQuiet quiet (ground_of grammar.now input.now) 0 input.now.resolution }
    ensures long { IfOk result (λ q. length q.bests.rows ≡ 5) }
    ensures rows { IfOk result (λ q. AreRootRows grammar.now input.now 5 q.bests.rows) }
    ensures written { IfOk result (λ q. AreRootLists grammar.now input.now rules.new.items q.ends 25) }
{
    rules.clear();
    let a = only_tree(grammar, plan, input, quiet, root, Carry::of(0), rules)?;
    let b = only_tree(grammar, plan, input, quiet, root, Carry::of(1), rules)?;
    let c = only_tree(grammar, plan, input, quiet, root, Carry::of(2), rules)?;
    let d = only_tree(grammar, plan, input, quiet, root, Carry::of(3), rules)?;
    let e = only_tree(grammar, plan, input, quiet, root, Carry::of(4), rules)?;
    let rows = [
        [a.best, None, None, None, None],
        [b.best, None, None, None, None],
        [c.best, None, None, None, None],
        [d.best, None, None, None, None],
        [e.best, None, None, None, None],
    ];
    let ends = [
        a.end, a.end, a.end, a.end, a.end, b.end, b.end, b.end, b.end, b.end, c.end, c.end, c.end,
        c.end, c.end, d.end, d.end, d.end, d.end, d.end, e.end, e.end, e.end, e.end, e.end,
    ];
    Ok(QuietTrees {
        bests: BarBests { rows },
        ends,
    })
}

/// Writes the rule list of the only tree for a number carried in, and says where it ends.
#[inline(always)]
fn only_tree(
    grammar: &Grammar,
    plan: &Plan,
    input: &BarInput,
    quiet: Quiet,
    root: u32,
    from: Carry,
    rules: &mut Vec<u16>,
) -> Result<OnlyTree, AllocError>
    requires ready { IsReady grammar.now input.now }
    requires plan { IsPlan grammar.now plan.now }
    requires root { HasSeat plan.now root (input.now.resolution, input.now.symbol) }
    requires quiet { IsQuiet quiet (ground_of grammar.now input.now) 0 input.now.resolution }
    ensures { IfOk result (IsOnlyEnded grammar.now input.now from rules.old.items rules.new.items) }
{
    let best = write_only(grammar, plan, input, quiet, root, from, rules)?;
    let end = u16::try_from(rules.len()).ok().ok_or(AllocError)?;
    Ok(OnlyTree { best, end })
}

/// Writes the rule list of that tree, where there is one.
#[inline(always)]
fn write_only(
    grammar: &Grammar,
    plan: &Plan,
    input: &BarInput,
    quiet: Quiet,
    root: u32,
    from: Carry,
    rules: &mut Vec<u16>,
) -> Result<Option<Best>, AllocError>
    requires ready { IsReady grammar.now input.now }
    requires plan { IsPlan grammar.now plan.now }
    requires root { HasSeat plan.now root (input.now.resolution, input.now.symbol) }
    requires quiet { IsQuiet quiet (ground_of grammar.now input.now) 0 input.now.resolution }
    ensures { IfOk result (IsOnlyTree grammar.now input.now from rules.old.items rules.new.items) }
{
    let Some(tree) = least_quiet(grammar, plan, root, quiet, from) else {
        return Ok(None);
    };
    write_tree(grammar, plan, quiet, tree, root, from, rules)?;
    Ok(Some(Best {
        cost: tree.cost,
        rank: 0,
    }))
}
