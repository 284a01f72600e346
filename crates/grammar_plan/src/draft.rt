ghost use Rattle.grammar_plan.specs.Drafts.{HasAllCuts, HasCutOf, cuts_pair};
ghost use Rattle.grammar_plan.specs.Spans.{IsRuleSpan};
ghost use Rattle.rhythm_base.specs.Readable.{IsReadable};
ghost use Rattle.std.specs.Prelude.{◌≡◌, ◌≤◌, IfOk, length};

use crate::cut::Cut;
use crate::pairs::Pairs;
use crate::parts::push_parts;
use crate::spans::Span;
use crate::suiting::suits;
use rhythm_base::{Grammar, Rule};
use std::alloc::AllocError;

/// The cuts of the seats that were found.
#[derive(Drop)]
pub struct Draft {
    pub pairs: Pairs,
    pub cuts: Vec<Cut>,
    /// The seats of the parts of the cuts.
    pub parts: Vec<u32>,
}

impl Draft {
    /// Pushes the cuts of a width, in units, and a symbol, by rising rule. Only the rules of the span are looked at.
    pub fn push_cuts(
        &mut self,
        grammar: &Grammar,
        span: Span,
        width: u16,
        symbol: u8,
    ) -> Result<(), AllocError>
        requires readable { IsReadable grammar.now }
        requires within { (span.first ≤ span.end) × (span.end ≤ length grammar.now.rules) }
        requires each { IsRuleSpan grammar.now.rules symbol span.first span.end }
        ensures { IfOk result (λ _. HasAllCuts grammar.now (width, symbol) self.old self.new) }
    {
        'rules: for number in span.first..span.end {
            let rule = &grammar.rules[number as usize];
            if cuts(rule, width, symbol) {
                self.push_cut(rule, number, width)?;
            }
        }
        Ok(())
    }

    /// Pushes the rule of this number as a cut of the width.
    fn push_cut(&mut self, rule: &Rule, number: u16, width: u16) -> Result<(), AllocError>
        ensures { IfOk result (λ _. HasCutOf rule.now number width self.old self.new) }
    {
        let first = u32::try_from(self.parts.len()).ok().ok_or(AllocError)?;
        push_parts(self, &rule.body, width)?;
        let end = u32::try_from(self.parts.len()).ok().ok_or(AllocError)?;
        self.cuts.push(Cut {
            rule: number,
            weight: rule.weight,
            first,
            end,
        })?;
        Ok(())
    }
}

/// Whether the rule cuts an interval of this width, in units, for the symbol.
fn cuts(rule: &Rule, width: u16, symbol: u8) -> bool
    ensures { result ≡ cuts_pair rule.now (width, symbol) }
{
    rule.body.ending().is_none() && suits(rule, width, symbol)
}
