ghost use Rattle.rule_counts.specs.Counts.{AreCapped, AreRuleCounts, AreRaised};
ghost use Rattle.std.specs.Prelude.{◌≡◌, ◌<◌, [], All, IfOk, length};

use std::alloc::{AllocError, Global};
use std::marker::Model;

/// The most uses of a rule that are counted: further ones change nothing.
pub const MOST_USES: u32 = 1_048_576;

/// How often each rule of a grammar stands in the lists counted so far, by the number of the rule, and `MOST_USES` where it
/// stands oftener.
#[derive(Drop)]
pub struct RuleCounts {
    counts: Vec<u32>,
}

impl Model for RuleCounts {
    ghost use Rattle.rule_counts.specs.Counts.{AreCapped};
    ghost use Rattle.std.specs.Prelude.{ℕ, List};

    ghost Value = { List ℕ };

    ghost view = { λ c. c.counts.items };

    ghost invariant = { λ c. AreCapped c.counts.items };
}

impl RuleCounts {
    /// The counts of a grammar of so many rules before any list.
    pub fn zeros(alloc: Global, rules: usize) -> Result<RuleCounts, AllocError>
        ensures { IfOk result (AreRuleCounts rules []) }
    {
        Ok(RuleCounts {
            counts: vec![in alloc; 0; rules]?,
        })
    }

    /// Counts a list of the numbers of rules: the count of each rule rises by how often the rule stands in the list, up to
    /// `MOST_USES`.
    pub fn add(&mut self, list: &[u16])
        requires { All (λ r. r < length self.old) list.now }
        ensures { AreRaised self.old list.now self.new }
    {
        'rules: for rule in list {
            let number = *rule as usize;
            self.counts[number] = MOST_USES.min(self.counts[number] + 1);
        }
    }

    /// The counts, by the numbers of the rules.
    pub fn as_slice(&self) -> &[u32]
        ensures value { result.now ≡ self.now }
        ensures capped { AreCapped self.now }
    {
        self.counts.as_slice()
    }
}
