ghost use Rattle.bar_alternatives.specs.BestTrees.{AreSmall};
ghost use Rattle.rhythm_base.specs.Readable.{IsReadable};
ghost use Rattle.std.specs.Prelude.{◌≡◌, ◌<◌, ◌^◌, ℕ, IsTrue, Some};

use bar_alternatives::{Alternative, alternatives};
use rhythm_base::{BarInput, Grammar};
use std::alloc::{AllocError, Global};
use std::io;

/// How many of the best trees are listed.
const COUNT: u32 = 16;

/// The least costs of the bars on one side, by the number of chords carried.
type Costs = [Option<u64>; 5];

/// What lies round a bar whose best trees are listed.
#[derive(Clone, Copy)]
pub enum Around {
    /// Nothing, so that no chord is carried in or out.
    Nothing,
    /// Other bars, so that up to four chords may be.
    Bars,
}

impl Around {
    /// What a word says.
    pub fn named(name: &str) -> Option<Around> {
        match name {
            "alternatives" => Some(Around::Nothing),
            "carried" => Some(Around::Bars),
            _ => None,
        }
    }

    /// The costs on either side.
    fn costs(self) -> Costs {
        match self {
            Around::Nothing => [Some(0), None, None, None, None],
            Around::Bars => [Some(0), Some(3), Some(1), Some(7), Some(2)],
        }
    }
}

fn is_small(cost: Option<u64>) -> bool
    ensures { IsTrue result → (c : ℕ) → cost ≡ Some c → c < 2 ^ 60 }
{
    match cost {
        Some(cost) => cost < 1 << 60,
        None => true,
    }
}

/// Whether the costs can be added up.
fn are_small(costs: &Costs) -> bool
    ensures { IsTrue result → AreSmall costs.now }
{
    for cost in costs {
        if !is_small(*cost) {
            return false;
        }
    }
    true
}

/// The best trees of the bar; none where the costs are too large.
pub fn best_trees(
    alloc: Global,
    grammar: &Grammar,
    bar: &BarInput,
    around: Around,
) -> Result<Vec<Alternative>, AllocError>
    requires readable { IsReadable grammar.now }
    requires units { bar.now.resolution ≡ grammar.now.resolution }
{
    let costs = around.costs();
    if are_small(&costs) {
        alternatives(alloc, grammar, bar, &costs, &costs, COUNT)
    } else {
        Ok(Vec::new(alloc))
    }
}

/// A number made of the rule lists of the trees: equal for equal lists, and nearly always other for others.
fn checksum(alloc: Global, list: &[Alternative]) -> Result<u64, AllocError> {
    let mut sum = list.len() as u64;
    for one in list {
        for rule in &one.tree.sequence(alloc)? {
            sum = (sum ^ u64::from(*rule)).wrapping_mul(1_099_511_628_211);
        }
        sum = sum.rotate_left(7);
    }
    Ok(sum)
}

/// The totals of the trees, and their checksum.
pub fn print_trees(rt: &impl Print, alloc: Global, list: &[Alternative]) -> io::Result<()> {
    for one in list {
        print!(rt; " {}", one.total)?;
    }
    let sum = checksum(alloc, list)?;
    println!(rt; ", checksum {sum}")
}
