ghost use Rattle.grammar_plan.specs.Spans.{AreRuleSpans, IsRuleSpan};
ghost use Rattle.rhythm_base.specs.Readable.{IsReadable};
ghost use Rattle.std.specs.Prelude.{◌≡◌, ◌≤◌, length};

use rhythm_base::Grammar;

/// Between which numbers the rules of each symbol lie, by the symbol: from the first on, and before the end.
#[derive(Clone, Copy)]
pub struct Spans {
    first: [u16; 256],
    end: [u16; 256],
}

/// Numbers of rules: from the first on, and before the end.
#[derive(Clone, Copy)]
pub struct Span {
    pub first: u16,
    pub end: u16,
}

impl Spans {
    /// The spans of the grammar's symbols.
    pub fn of(grammar: &Grammar) -> Spans
        requires { IsReadable grammar.now }
        ensures { AreRuleSpans grammar.now.rules result }
    {
        let mut first = [u16::MAX; 256];
        let mut end = [0; 256];
        for number in 0..grammar.rules.len() as u16 {
            let symbol = grammar.rules[number as usize].lhs as usize;
            first[symbol] = first[symbol].min(number);
            end[symbol] = number + 1;
        }
        Spans { first, end }
    }

    /// The numbers between which all rules of the symbol lie.
    pub fn span(&self, grammar: &Grammar, symbol: u8) -> Span
        requires readable { IsReadable grammar.now }
        requires spans { AreRuleSpans grammar.now.rules self.now }
        ensures within { (result.first ≤ result.end) × (result.end ≤ length grammar.now.rules) }
        ensures each { IsRuleSpan grammar.now.rules symbol result.first result.end }
    {
        let count = grammar.rules.len() as u16;
        let first = self.first[symbol as usize].min(count);
        let end = self.end[symbol as usize].min(count).max(first);
        Span { first, end }
    }
}
