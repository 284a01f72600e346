ghost use Rattle.grammar_plan.specs.Plans.{HasQuietTree, IsPlan};
ghost use Rattle.std.specs.Prelude.{◌<◌, length};

use grammar_plan::{Plan, QuietTree};
use rhythm_base::{Carry, Grammar};
use row_laws::Quiet;

/// The least tree of a seat over an interval that is quiet so, with `from` chords carried in.
#[inline(always)]
pub fn least_quiet(
    grammar: &Grammar,
    plan: &Plan,
    seat: u32,
    quiet: Quiet,
    from: Carry,
) -> Option<QuietTree>
    requires plan { IsPlan grammar.now plan.now }
    requires seat { seat < length plan.now.seats.items }
    ensures { HasQuietTree grammar.now plan.now seat quiet from result }
{
    plan.quiet_tree(grammar, seat, quiet, from.count())
}
