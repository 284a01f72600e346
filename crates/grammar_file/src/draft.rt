ghost use Rattle.grammar_file.specs.Grammar.{AreWithin};
ghost use Rattle.grammar_file.specs.Outcome.{FailsWithin, GivesAt, GivesGrammar, seen_grammar};
ghost use Rattle.grammar_file.specs.Statements.{all_spoken, conflict, is_rule, is_start_of, names_of, spoken_by};
ghost use Rattle.grammar_file.specs.declared.fault.GrammarWhat.TheVariants.{Memory};
ghost use Rattle.std.specs.List.{list_any};
ghost use Rattle.std.specs.Prelude.{◌≡◌, [], ◌∷◌, ◌++◌, IfErr, IfOk, OnOk, filter, length};

use crate::fault::{GrammarFault, GrammarWhat, on_line};
use crate::line::{Line, Lines, Next};
use crate::names::Names;
use crate::said::{Said, read_said};
use std::alloc::Global;

/// A line after the header, with its number.
#[derive(Drop)]
pub(crate) struct Spoken<'a> {
    pub(crate) line: u32,
    pub(crate) said: Said<'a>,
}

/// What the lines after the header say so far.
#[derive(Drop)]
pub(crate) struct Draft<'a> {
    /// The names on the left sides of rules, in the order of their first appearance.
    pub(crate) names: Names<'a>,
    /// What each line says.
    pub(crate) spoken: Vec<Spoken<'a>>,
}

/// Whether a line gives a start to the signature.
fn has_start(spoken: &[Spoken], num: u8, den: u8) -> bool
    ensures { result ≡ list_any (is_start_of num den) spoken.now }
{
    spoken.iter().any(|line| match line.said {
        Said::Start { num: n, den: d, .. } => n == num && d == den,
        Said::Rule { .. } => false,
    })
}

/// The number of rules.
fn count_rules(spoken: &[Spoken]) -> usize
    ensures { result ≡ length (filter is_rule spoken.now) }
{
    spoken
        .iter()
        .filter(|line| matches!(line.said, Said::Rule { .. }))
        .count()
}

impl<'a> Draft<'a> {
    /// A draft of no lines.
    fn new(alloc: Global) -> Draft<'a>
        ensures spoken { result.spoken.items ≡ [] }
        ensures names { result.names ≡ [] }
    {
        Draft {
            names: Names::new(alloc),
            spoken: Vec::new(alloc),
        }
    }

    /// What speaks against a line after the others.
    fn conflict(&self, said: &Said) -> Option<GrammarWhat>
        requires { self.now.names ≡ names_of self.now.spoken.items }
        ensures { result ≡ conflict self.now.spoken.items said.now }
    {
        match said {
            Said::Start { num, den, .. } => {
                has_start(&self.spoken, *num, *den).then_some(GrammarWhat::DoubleStart)
            }
            Said::Rule { name, .. } => {
                if count_rules(&self.spoken) >= 512 {
                    Some(GrammarWhat::TooManyRules)
                } else if self.names.has_room_for(name.as_slice()) {
                    None
                } else {
                    Some(GrammarWhat::TooManyNames)
                }
            }
        }
    }

    /// What a line says after the others.
    fn speak(&self, alloc: Global, version: u8, line: &Line<'a>) -> Result<Spoken<'a>, GrammarWhat>
        requires { self.now.names ≡ names_of self.now.spoken.items }
        ensures value { GivesGrammar result (spoken_by version self.now.spoken.items line.now) }
        ensures line { IfOk result (λ spoken. spoken.line ≡ line.now.number) }
    {
        let said = read_said(alloc, version, line.words.as_slice())?;
        match self.conflict(&said) {
            None => Ok(Spoken {
                line: line.number,
                said,
            }),
            Some(what) => Err(what),
        }
    }

    /// Appends a line.
    fn push(&mut self, spoken: Spoken<'a>) -> Result<(), GrammarWhat>
        requires { self.old.names ≡ names_of self.old.spoken.items }
        ensures names { OnOk result (self.new.names ≡ names_of self.new.spoken.items) }
        ensures spoken { OnOk result (self.new.spoken.items ≡ self.old.spoken.items ++ spoken.entry ∷ []) }
        ensures err { IfErr result (λ what. what ≡ Memory) }
    {
        if let Said::Rule { name, .. } = &spoken.said {
            self.names.insert(name.as_slice())?;
        }
        self.spoken.push(spoken)?;
        Ok(())
    }
}

/// What the lines after the header say.
pub(crate) fn read_lines<'a>(
    alloc: Global,
    version: u8,
    lines: &mut Lines<'a>,
) -> Result<Draft<'a>, GrammarFault>
    ensures value { GivesAt (seen_grammar (λ d. d.spoken.items) result) (all_spoken version lines.old.lines) }
    ensures names { IfOk result (λ d. d.names ≡ names_of d.spoken.items) }
    ensures lines { IfOk result (λ d. AreWithin lines.old.end d.spoken.items) }
    ensures at { FailsWithin lines.old.end result }
{
    let mut draft = Draft::new(alloc);
    'lines: while let Next::Line(line) = lines.next(alloc)? {
        let spoken = on_line(line.number, draft.speak(alloc, version, &line))?;
        on_line(line.number, draft.push(spoken))?;
    }
    Ok(draft)
}
