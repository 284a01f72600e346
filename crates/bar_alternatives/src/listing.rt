ghost use Rattle.bar_alternatives.specs.BestTrees.{AreBestTrees, AreSmall, unpinned};
ghost use Rattle.bar_alternatives.specs.Totals.{IsListed};
ghost use Rattle.rhythm_base.specs.BarInput.{IsBarInput};
ghost use Rattle.rhythm_base.specs.Lists.{Each};
ghost use Rattle.rhythm_base.specs.Readable.{IsReadable};
ghost use Rattle.rhythm_base.specs.RuleTrees.{IsRuleList};
ghost use Rattle.std.specs.Prelude.{◌≡◌, All, IfOk};

use crate::alternative::Alternative;
use crate::totals::best_totals;
use best_trees::{Ranking, best_trees};
use rhythm_base::{BarInput, Grammar, Tree};
use std::alloc::{AllocError, Global};

/// The input with its pin lifted.
fn lifted(alloc: Global, input: &BarInput) -> Result<BarInput, AllocError>
    requires { IsBarInput input.now }
    ensures { IfOk result (λ b. b ≡ unpinned input.now) }
{
    let onsets = input.onsets().to_vec(alloc)?;
    Ok(BarInput::make(
        input.start(),
        input.resolution(),
        input.num(),
        input.den(),
        input.length(),
        onsets,
        input.before(),
        None,
    ))
}

/// The totals with the trees whose rules are listed.
fn listed(
    alloc: Global,
    grammar: &Grammar,
    start: u8,
    best: &Ranking,
) -> Result<Vec<Alternative>, AllocError>
    requires { All (λ key. IsRuleList grammar.now start key.1) best.now }
    ensures { IfOk result (λ list. Each (IsListed grammar.now start) best.now list.items) }
{
    let mut list = Vec::new(alloc);
    'entries: for entry in best.entries() {
        let tree = Tree::from_rules(alloc, grammar, start, entry.rules())?;
        list.push(Alternative {
            total: entry.cost(),
            tree,
        })?;
    }
    Ok(list)
}

/// The best trees of a bar, its pin lifted, with what lies before it and after it: the first `count` of the trees that fit
/// with counts for which a cost before, by the number of chords carried in, and a cost after, by the number carried out, are
/// there. A total is the sum of these two costs and the tree's own. The least total comes first, and of equal totals the tree
/// with the lower rule list. There are fewer only where there are no more such trees.
pub fn alternatives(
    alloc: Global,
    grammar: &Grammar,
    input: &BarInput,
    before: &[Option<u64>; 5],
    after: &[Option<u64>; 5],
    count: u32,
) -> Result<Vec<Alternative>, AllocError>
    requires readable { IsReadable grammar.now }
    requires units { input.now.resolution ≡ grammar.now.resolution }
    requires before { AreSmall before.now }
    requires after { AreSmall after.now }
    ensures { IfOk result (λ list. AreBestTrees grammar.now (unpinned input.now) before.now after.now count list.items) }
{
    // An accessor's contract tells that the input is well formed.
    let start = input.start();
    let input = lifted(alloc, input)?;
    let count = count as usize;
    let grid = best_trees(alloc, grammar, &input, None, count)?;
    let best = best_totals(alloc, count, &grid, before, after)?;
    listed(alloc, grammar, start, &best)
}
