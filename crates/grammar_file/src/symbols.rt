ghost use Rattle.rhythm_base.specs.declared.limits.TheConstants.{MOST_NAMES};
ghost use Rattle.grammar_file.specs.Lines.{texts};
ghost use Rattle.grammar_file.specs.Names.{is_known};
ghost use Rattle.grammar_file.specs.Outcome.{GivesGrammar};
ghost use Rattle.grammar_file.specs.Statements.{left_side};
ghost use Rattle.grammar_file.specs.Symbols.{IsUnknownIn, is_understood, known_body, known_parts, known_symbols, rule_in, start_in};
ghost use Rattle.grammar_file.specs.declared.fault.GrammarWhat.TheVariants.{Memory};
ghost use Rattle.std.specs.List.{list_all};
ghost use Rattle.std.specs.Prelude.{◌++◌, ◌≡◌, ◌≢◌, ◌≤◌, IfErr, OnOk, length, map, true};

use crate::draft::Spoken;
use crate::endings::body_of_ending;
use crate::fault::GrammarWhat;
use crate::names::Names;
use crate::said::{NamedBody, Said};
use rhythm_base::{Body, Kids, Portions, Rule, Start};
use std::alloc::Global;

/// The symbols of these names.
fn kids(alloc: Global, names: &Names, words: &[&[u8]]) -> Result<Kids, GrammarWhat>
    requires { length names.now ≤ MOST_NAMES }
    ensures { GivesGrammar result (known_symbols names.now (texts words.now)) }
{
    let mut kids = Vec::with_capacity(alloc, words.len())?;
    for word in words {
        kids.push(names.symbol(word)?)?;
    }
    Ok(Kids::of(kids))
}

/// The sizes with the symbols of their names.
fn portions(alloc: Global, names: &Names, sizes: &[(u8, &[u8])]) -> Result<Portions, GrammarWhat>
    requires { length names.now ≤ MOST_NAMES }
    ensures { GivesGrammar result (known_parts names.now (map (λ x. (x.0, x.1.now)) sizes.now)) }
{
    let mut portions = Vec::with_capacity(alloc, sizes.len())?;
    for (size, name) in sizes {
        portions.push((*size, names.symbol(name)?))?;
    }
    Ok(Portions::of(portions))
}

/// The body with symbols for names.
fn body(alloc: Global, names: &Names, named: &NamedBody) -> Result<Body, GrammarWhat>
    requires { length names.now ≤ MOST_NAMES }
    ensures { GivesGrammar result (known_body names.now named.now) }
{
    match named {
        NamedBody::Split(words) => Ok(Body::Split(kids(alloc, names, words.as_slice())?)),
        NamedBody::Parts(sizes) => Ok(Body::Parts(portions(alloc, names, sizes.as_slice())?)),
        NamedBody::Ending(ending) => Ok(body_of_ending(*ending)),
    }
}

/// Appends the start or the rule of a line. A rule's own name is among the names.
pub(crate) fn place(
    alloc: Global,
    names: &Names,
    spoken: &Spoken,
    starts: &mut Vec<Start>,
    rules: &mut Vec<Rule>,
) -> Result<(), GrammarWhat>
    requires few { length names.now ≤ MOST_NAMES }
    requires left_side { list_all (is_known names.now) (left_side spoken.now) ≡ true }
    ensures understood { OnOk result (is_understood names.now spoken.now ≡ true) }
    ensures starts { OnOk result (starts.new.items ≡ starts.old.items ++ start_in names.now spoken.now) }
    ensures rules { OnOk result (rules.new.items ≡ rules.old.items ++ rule_in names.now spoken.now) }
    ensures unknown { IfErr result (λ what. what ≢ Memory → IsUnknownIn names.now spoken.now what) }
{
    match &spoken.said {
        Said::Start { num, den, name } => {
            let symbol = names.symbol(name.as_slice())?;
            starts.push(Start {
                num: *num,
                den: *den,
                symbol,
            })?;
        }
        Said::Rule {
            name,
            weight,
            body: named,
        } => {
            let body = body(alloc, names, named)?;
            let lhs = names.symbol(name.as_slice())?;
            rules.push(Rule {
                lhs,
                weight: *weight,
                body,
            })?;
        }
    }
    Ok(())
}
