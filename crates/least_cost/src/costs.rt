ghost use Rattle.chain_bars.specs.Tower.{best_cost};
ghost use Rattle.least_cost.specs.Costs.{asked_cost, asked_costs};
ghost use Rattle.rhythm_base.specs.Ranked.{five};
ghost use Rattle.std.specs.Prelude.{◌≡◌, None, slice_index_or};

use bar_trees::BarBests;
use rhythm_base::Best;

/// What the least trees of one bar of one voice cost, for the numbers of chords carried in that were asked for. For the others there
/// is no cost, as where no tree fits.
#[derive(Clone, Copy)]
pub struct BarCosts {
    /// By the number of chords carried in, and then by the number carried out.
    pub costs: [[Option<u64>; 5]; 5],
}

/// The cost of an entry, where it is there.
fn cost_of(best: Option<Best>) -> Option<u64>
    ensures { result ≡ best_cost best }
{
    match best {
        Some(best) => Some(best.cost),
        None => None,
    }
}

/// The costs of the entries for a number carried in, where they are asked for.
fn row_costs(row: &[Option<Best>; 5], is_asked: bool) -> [Option<u64>; 5]
    ensures { result ≡ five (λ to. asked_cost is_asked (slice_index_or row.now to None)) }
{
    if is_asked {
        [
            cost_of(row[0]),
            cost_of(row[1]),
            cost_of(row[2]),
            cost_of(row[3]),
            cost_of(row[4]),
        ]
    } else {
        [None; 5]
    }
}

/// The costs of the entries for the numbers carried in that are asked for.
#[tactic(auto, unfolding(crate::specs::Costs::asked_costs))]
pub fn costs_in(bests: &BarBests, asked: [bool; 5]) -> BarCosts
    ensures { result.costs ≡ asked_costs bests.now.rows asked }
{
    BarCosts {
        costs: [
            row_costs(&bests.rows[0], asked[0]),
            row_costs(&bests.rows[1], asked[1]),
            row_costs(&bests.rows[2], asked[2]),
            row_costs(&bests.rows[3], asked[3]),
            row_costs(&bests.rows[4], asked[4]),
        ],
    }
}
