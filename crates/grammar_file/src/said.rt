ghost use Rattle.grammar_file.specs.Lines.{texts};
ghost use Rattle.grammar_file.specs.Outcome.{GivesGrammar};
ghost use Rattle.grammar_file.specs.Said.{are_parts, body_of, has_form, said_parts, rule_of_kind, said_by, start_of};
ghost use Rattle.std.specs.List.{after_first, before_first};
ghost use Rattle.std.specs.Prelude.{◌≡◌, ◌==◌, ℕ, IsTrue};

use crate::endings::ending_of_words;
use crate::fault::GrammarWhat;
use crate::kind::{Kind, has_form, kind_of};
use crate::number::{beat, is_numeral, number_within};
use crate::spelling::is_name;
use crate::words::{Sizes, Word, Words};
use rhythm_base::Ending;
use std::alloc::Global;

/// What a rule makes of an interval, with the symbols of its parts by name.
#[derive(Drop)]
pub(crate) enum NamedBody<'a> {
    Split(Words<'a>),
    Parts(Sizes<'a>),
    Ending(Ending),
}

/// What a line after the header says.
#[derive(Drop)]
pub(crate) enum Said<'a> {
    /// The root symbol of the bars of a signature.
    Start {
        num: u8,
        den: u8,
        name: Word<'a>,
    },
    /// A rule of the symbol with this name.
    Rule {
        name: Word<'a>,
        weight: u32,
        body: NamedBody<'a>,
    },
}

/// The words around the first slash.
fn halves(word: &[u8]) -> (&[u8], &[u8])
    ensures before { result.0.now ≡ before_first (λ b. b == 47) word.now }
    ensures after { result.1.now ≡ after_first (λ b. b == 47) word.now }
{
    match word.iter().position(|byte| *byte == b'/') {
        Some(at) => (&word[..at], &word[at + 1..]),
        None => (word, &[]),
    }
}

/// The start that a line says with these words.
fn start<'a>(signature: &[u8], name: &'a [u8]) -> Result<Said<'a>, GrammarWhat>
    ensures { result ≡ start_of signature.now name.now }
{
    let (num, den) = halves(signature);
    if !(is_numeral(num) && is_numeral(den) && is_name(name)) {
        return Err(GrammarWhat::Line);
    }
    let num = number_within(num, 1, 64)? as u8;
    let den = beat(den)?;
    Ok(Said::Start {
        num,
        den,
        name: Word::of(name),
    })
}

/// The parts of these sizes and names.
fn parts<'a>(alloc: Global, words: &[&'a [u8]]) -> Result<Sizes<'a>, GrammarWhat>
    requires { IsTrue (are_parts (texts words.now)) }
    ensures { GivesGrammar result (said_parts (texts words.now)) }
{
    let mut parts = Vec::with_capacity(alloc, words.len() / 2)?;
    let mut rest = words;
    'parts: while let [size, name, more @ ..] = rest {
        parts.push((number_within(size, 1, 96)? as u8, *name))?;
        rest = more;
    }
    Ok(Sizes::of(parts))
}

/// The body of this kind with these words after its first.
fn body<'a>(alloc: Global, kind: Kind, words: &[&'a [u8]]) -> Result<NamedBody<'a>, GrammarWhat>
    requires { (version : ℕ) × IsTrue (has_form version kind (texts words.now)) }
    ensures { GivesGrammar result (body_of kind (texts words.now)) }
{
    Ok(match kind {
        Kind::Split => NamedBody::Split(Words::of(Vec::from_slice(alloc, words)?)),
        Kind::Parts => NamedBody::Parts(parts(alloc, words)?),
        Kind::Ending(word) => NamedBody::Ending(ending_of_words(word, words)?),
    })
}

/// The rule that a line says with a name, a weight, and words after the word of this kind.
fn rule<'a>(
    alloc: Global,
    version: u8,
    name: &'a [u8],
    weight: &[u8],
    kind: Option<Kind>,
    words: &[&'a [u8]],
) -> Result<Said<'a>, GrammarWhat>
    ensures { GivesGrammar result (rule_of_kind version name.now weight.now kind (texts words.now)) }
{
    let Some(kind) = kind else {
        return Err(GrammarWhat::Line);
    };
    if !(is_name(name) && is_numeral(weight) && has_form(version, kind, words)) {
        return Err(GrammarWhat::Line);
    }
    let weight = number_within(weight, 0, 1_000_000)?;
    let body = body(alloc, kind, words)?;
    Ok(Said::Rule {
        name: Word::of(name),
        weight,
        body,
    })
}

/// What a line after the header says with these words.
pub(crate) fn read_said<'a>(
    alloc: Global,
    version: u8,
    words: &[&'a [u8]],
) -> Result<Said<'a>, GrammarWhat>
    ensures { GivesGrammar result (said_by version (texts words.now)) }
{
    match words {
        [first, second, third, more @ ..] => {
            if *first == b"start".as_slice() && more.is_empty() {
                return start(second, third);
            }
            rule(alloc, version, first, second, kind_of(third), more)
        }
        _ => Err(GrammarWhat::Line),
    }
}
