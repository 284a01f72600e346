ghost use Rattle.rhythm_base.specs.declared.limits.TheConstants.{MOST_RULES};
ghost use Rattle.rule_counts.specs.Counts.{AreCapped};
ghost use Rattle.std.specs.Prelude.{◌≡◌, ◌+◌, ◌*◌, ◌^◌, ◌<◌, ◌≤◌, length};
ghost use Rattle.weight_learning.specs.Weights as weights;

use crate::bit::Bit;
use crate::shares::share;
use crate::steps::steps;
use rhythm_base::Rule;

/// The most that a rule may cost more which is used half as often as another of its symbol.
pub const HEAVIEST_BIT: u32 = 10_000;

/// No learned weight of a symbol of which a rule is used is above this.
pub const HEAVIEST_LEARNED: u32 = 400_000;

/// The parts of one use of a rule.
const PARTS_OF_USE: u64 = 1_024;

/// How many uses of its rules are imagined for a symbol, shared out as their weights say.
const IMAGINED_USES: u64 = 20;

/// The share of a rule by its weight.
fn share_of(rule: &Rule, bit: Bit) -> u64
    ensures value { result ≡ weights.share_of bit rule.now }
    ensures few { result ≤ 2 ^ 31 }
{
    share(64 * u64::from(rule.weight) / bit.weight())
}

/// The shares of a symbol's rules together, 1 at least.
fn share_sum(rules: &[Rule], bit: Bit, symbol: u8) -> u64
    requires few_rules { length rules.now ≤ MOST_RULES }
    ensures { result ≡ weights.share_sum bit symbol rules.now }
{
    let mut sum = 0;
    'rules: for rule in rules {
        if rule.lhs == symbol {
            sum += share_of(rule, bit);
        }
    }
    sum.max(1)
}

/// The parts of a rule that is used so often and has this share of the whole.
fn parts(count: u32, share: u64, whole: u64) -> u64
    requires { weights.IsShareOf share whole }
    ensures value { result ≡ weights.rule_parts count share whole }
    ensures some { 1 ≤ result }
    ensures few { result ≤ 1024 * count + 20480 }
{
    let imagined = IMAGINED_USES * PARTS_OF_USE * share / whole;
    PARTS_OF_USE * u64::from(count) + imagined.max(1)
}

/// The parts of a symbol's rules together.
fn part_sum(rules: &[Rule], counts: &[u32], bit: Bit, symbol: u8) -> u64
    requires few_rules { length rules.now ≤ MOST_RULES }
    requires counts { length counts.now ≡ length rules.now }
    requires capped { AreCapped counts.now }
    ensures value { result ≡ weights.part_sum bit symbol rules.now counts.now }
    ensures few { result < 2 ^ 40 }
{
    let whole = share_sum(rules, bit, symbol);
    let mut sum = 0;
    'rules: for (number, rule) in rules.iter().enumerate() {
        if rule.lhs == symbol {
            sum += parts(counts[number], share_of(rule, bit), whole);
        }
    }
    sum
}

/// Whether some rule of the symbol is used.
fn is_used(rules: &[Rule], counts: &[u32], symbol: u8) -> bool
    requires { length counts.now ≡ length rules.now }
    ensures { result ≡ weights.is_used symbol rules.now counts.now }
{
    'rules: for (number, rule) in rules.iter().enumerate() {
        if rule.lhs == symbol && counts[number] > 0 {
            return true;
        }
    }
    false
}

/// What the rule of this number weighs by the counts.
pub fn learned_weight(rules: &[Rule], counts: &[u32], bit: Bit, number: usize) -> u32
    requires few_rules { length rules.now ≤ MOST_RULES }
    requires counts { length counts.now ≡ length rules.now }
    requires capped { AreCapped counts.now }
    requires there { number < length rules.now }
    ensures { weights.IsLearnedWeight bit rules.now counts.now number result }
{
    let rule = &rules[number];
    if !is_used(rules, counts, rule.lhs) {
        return rule.weight;
    }
    let whole = share_sum(rules, bit, rule.lhs);
    let own = parts(counts[number], share_of(rule, bit), whole);
    let all = part_sum(rules, counts, bit, rule.lhs);
    (bit.weight() * (steps(all) - steps(own)) / 64) as u32
}
