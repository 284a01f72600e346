ghost use Rattle.derivation.specs.RuleLists.{AreToldLeaves};
ghost use Rattle.derivation.specs.Sounds.{plain_bars};
ghost use Rattle.rhythm_base.specs.Barlines.{barline};
ghost use Rattle.rhythm_base.specs.DeadBars.{end_of_bars};
ghost use Rattle.rhythm_base.specs.declared.limits.TheConstants.{LATEST_TICK, MOST_BARS};
ghost use Rattle.tree_laws.specs.Voices.{Adjacent};
ghost use Rattle.std.specs.Prelude.{◌≡◌, ◌≤◌, IfOk, length, map};

use crate::leaf::{TimedBar, TimedLeaf};
use crate::walk::push_tree;
use rhythm_base::{Bar, Grammar, Units};
use std::alloc::{AllocError, Global};

/// The leaves of the trees of a voice, left to right, off the rule list of each bar's tree.
pub fn timed_leaves(
    alloc: Global,
    grammar: &Grammar,
    resolution: Units,
    lists: &[&[u16]],
    bars: &[Bar],
    last: u64,
) -> Result<Vec<TimedLeaf>, AllocError>
    requires units { resolution ≡ grammar.now.resolution }
    requires few_bars { length bars.now ≤ MOST_BARS }
    requires last { last ≤ LATEST_TICK }
    requires near { let all = plain_bars grammar.now last bars.now in Adjacent 0 all (end_of_bars 0 all) }
    ensures { let all = plain_bars grammar.now last bars.now in
        IfOk result (λ v. AreToldLeaves grammar.now all (map (λ l. l.now) lists.now) v.items) }
{
    let units = resolution.count();
    let mut leaves = Vec::new(alloc);
    let mut later = bars;
    let mut number = 0;
    'lists: for list in lists {
        let [bar, after @ ..] = later else {
            return Ok(leaves);
        };
        let bar = TimedBar {
            number,
            start: bar.start,
            length: first_barline(after, last) - bar.start,
            resolution,
        };
        push_tree(grammar.rules.as_slice(), &bar, 0, units, list, &mut leaves)?;
        later = after;
        number += 1;
    }
    Ok(leaves)
}

/// Where the first of these bars starts, or the last barline where there is none.
fn first_barline(bars: &[Bar], last: u64) -> u64
    ensures { result ≡ barline bars.now last 0 }
{
    match bars {
        [] => last,
        [bar, ..] => bar.start,
    }
}
