ghost use Rattle.rhythm_base.specs.Readable.{IsReadable};
ghost use Rattle.rhythm_base.specs.declared.limits.TheConstants.{MOST_RULES};
ghost use Rattle.rule_counts.specs.Counts.{AreCapped};
ghost use Rattle.std.specs.Prelude.{◌≡◌, ◌≤◌, IfOk, length};
ghost use Rattle.weight_learning.specs.Learned as learning;

use crate::bit::Bit;
use crate::copies::{with_rules, with_weight};
use crate::weights::learned_weight;
use rhythm_base::{Grammar, Rule};
use rule_counts::RuleCounts;
use std::alloc::{AllocError, Global};

/// Equal rules but for the weights, which the counts say.
fn learned_rules(
    alloc: Global,
    rules: &[Rule],
    counts: &[u32],
    bit: Bit,
) -> Result<Vec<Rule>, AllocError>
    requires few_rules { length rules.now ≤ MOST_RULES }
    requires counts { length counts.now ≡ length rules.now }
    requires capped { AreCapped counts.now }
    ensures { IfOk result (λ v. v.items ≡ learning.learned_rules bit rules.now counts.now) }
{
    let mut learned = Vec::with_capacity(alloc, rules.len())?;
    'rules: for (number, rule) in rules.iter().enumerate() {
        let weight = learned_weight(rules, counts, bit, number);
        learned.push(with_weight(alloc, rule, weight)?)?;
    }
    Ok(learned)
}

/// The grammar with the weights that the counts of its rules say, where a rule that is used half as often as another of its
/// symbol costs `bit` more. A symbol of which no rule is used keeps its weights.
#[tactic(auto, unfolding(crate::specs::Learned::learned))]
pub fn learned(
    alloc: Global,
    grammar: &Grammar,
    counts: &RuleCounts,
    bit: Bit,
) -> Result<Grammar, AllocError>
    requires readable { IsReadable grammar.now }
    requires counts { length counts.now ≡ length grammar.now.rules }
    ensures value { IfOk result (λ g. g ≡ learning.learned grammar.now counts.now bit) }
    ensures readable { IfOk result IsReadable }
{
    // For the proof: the bit is in its range.
    let _weight = bit.weight();
    let rules = learned_rules(alloc, &grammar.rules, counts.as_slice(), bit)?;
    with_rules(alloc, grammar, rules)
}
