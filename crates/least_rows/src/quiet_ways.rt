ghost use Rattle.least_rows.specs.Ways.{AreShort, IsShort, quiet_rank, way_in, Joins};
ghost use Rattle.grammar_plan.specs.declared.quiet_tree.QuietTree.{QuietTree};
ghost use Rattle.least_rows.specs.Searches.{IsSearch};
ghost use Rattle.least_rows.specs.Steps.{AreQuietWays, AreQuietWaysBelow, way_to_none};
ghost use Rattle.std.specs.Prelude.{◌≡◌, ◌+◌, ◌<◌, ◌≤◌, Some, length};

use crate::quiet_tree::least_quiet;
use crate::search::Search;
use crate::way::{Way, offer_way};
use grammar_plan::QuietTree;
use rhythm_base::Carry;
use row_laws::Quiet;

/// Offers a way with a tree over a quiet interval after it, where there is one.
#[inline(always)]
fn offer_rest(best: &mut Option<Way>, way: Way, count: Carry, tree: Option<QuietTree>)
    requires short { IsShort way }
    requires tree { (t : QuietTree) → tree ≡ Some t → t.cost ≤ 3000000000 }
    ensures { Joins way count (quiet_rank tree) (way_to_none best.old) (way_to_none best.new) }
{
    if let Some(tree) = tree {
        offer_way(best, way.then(count, tree.cost, 0));
    }
}

/// Offers the way out of which `count` chords are carried with the tree over a quiet interval after it.
#[inline(always)]
fn offer_quiet(
    search: &Search<'_>,
    best: &mut Option<Way>,
    ways: &[Option<Way>; 5],
    count: Carry,
    seat: u32,
    quiet: Quiet,
)
    requires search { IsSearch search.now }
    requires seat { seat < length search.now.plan.now.seats.items }
    requires short { AreShort (way_in ways.now) }
    requires below { AreQuietWaysBelow search.now quiet seat ways.now count best.old }
    ensures { AreQuietWaysBelow search.now quiet seat ways.now (count + 1) best.new }
{
    match ways[count.index()] {
        None => {}
        Some(way) => {
            let tree = least_quiet(search.grammar, search.plan, seat, quiet, count);
            offer_rest(best, way, count, tree);
        }
    }
}

/// Several ways with the tree over a quiet interval after them.
#[inline(always)]
pub fn rest_of_several(
    search: &Search<'_>,
    ways: &[Option<Way>; 5],
    seat: u32,
    quiet: Quiet,
) -> Option<Way>
    requires search { IsSearch search.now }
    requires seat { seat < length search.now.plan.now.seats.items }
    requires short { AreShort (way_in ways.now) }
    ensures { AreQuietWays search.now quiet seat ways.now result }
{
    let mut best = None;
    'counts: for count in 0..5u8 {
        offer_quiet(search, &mut best, ways, Carry::of(count), seat, quiet);
    }
    best
}
