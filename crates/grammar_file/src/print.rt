ghost use Rattle.grammar_file.specs.Printed.{
  body_text,
  header_text,
  names_text,
  number_line,
  printed,
  rule_line,
  rule_lines,
  sizes_text,
  start_line,
  start_lines,
  symbol_name,
  weight_line,
};
ghost use Rattle.rhythm_base.specs.Readable.{IsBody, IsReadable};
ghost use Rattle.std.specs.Prelude.{◌≡◌, ℕ, ◌∷◌, ◌++◌, ◌<◌, All, IfOk, OnOk, length};

use crate::endings::push_ending;
use crate::text::{push, push_number};
use rhythm_base::{Body, Grammar, Name, Rule, Start};
use std::alloc::{AllocError, Global};

/// Appends a space and the name of a symbol.
fn push_name(text: &mut Vec<u8>, names: &[Name], symbol: u8) -> Result<(), AllocError>
    requires { symbol < length names.now }
    ensures { OnOk result (text.new.items ≡ text.old.items ++ 32 ∷ symbol_name names.now symbol) }
{
    push(text, b" ")?;
    push(text, names[symbol as usize].as_slice())
}

/// Appends the names of symbols, each after a space.
fn push_names(text: &mut Vec<u8>, names: &[Name], symbols: &[u8]) -> Result<(), AllocError>
    requires { All (λ s. s < length names.now) symbols.now }
    ensures { OnOk result (text.new.items ≡ text.old.items ++ names_text names.now symbols.now) }
{
    for symbol in symbols {
        push_name(text, names, *symbol)?;
    }
    Ok(())
}

/// Appends sizes and the names of symbols in turn, each after a space.
fn push_parts(
    alloc: Global,
    text: &mut Vec<u8>,
    names: &[Name],
    parts: &[(u8, u8)],
) -> Result<(), AllocError>
    requires { All (λ q. q.1 < length names.now) parts.now }
    ensures { OnOk result (text.new.items ≡ text.old.items ++ sizes_text names.now parts.now) }
{
    for (size, symbol) in parts {
        push(text, b" ")?;
        push_number(alloc, text, u32::from(*size))?;
        push_name(text, names, *symbol)?;
    }
    Ok(())
}

/// Appends the words of a rule's body.
fn push_body(
    alloc: Global,
    text: &mut Vec<u8>,
    names: &[Name],
    body: &Body,
) -> Result<(), AllocError>
    requires { (version : ℕ) × IsBody version (length names.now) body.now }
    ensures { OnOk result (text.new.items ≡ text.old.items ++ body_text names.now body.now) }
{
    match body {
        Body::Split(kids) => {
            push(text, b"split")?;
            push_names(text, names, kids.as_slice())
        }
        Body::Parts(parts) => {
            push(text, b"parts")?;
            push_parts(alloc, text, names, parts.as_slice())
        }
        _ => match body.ending() {
            Some(ending) => push_ending(alloc, text, ending),
            None => unreachable!(),
        },
    }
}

/// Appends a rule line.
fn push_rule(
    alloc: Global,
    text: &mut Vec<u8>,
    names: &[Name],
    rule: &Rule,
) -> Result<(), AllocError>
    requires lhs { rule.now.lhs < length names.now }
    requires body { (version : ℕ) × IsBody version (length names.now) rule.now.body }
    ensures { OnOk result (text.new.items ≡ text.old.items ++ rule_line names.now rule.now) }
{
    push(text, names[rule.lhs as usize].as_slice())?;
    push(text, b" ")?;
    push_number(alloc, text, rule.weight)?;
    push(text, b" ")?;
    push_body(alloc, text, names, &rule.body)?;
    push(text, b"\n")
}

/// Appends a start line.
fn push_start(
    alloc: Global,
    text: &mut Vec<u8>,
    names: &[Name],
    start: &Start,
) -> Result<(), AllocError>
    requires { start.now.symbol < length names.now }
    ensures { OnOk result (text.new.items ≡ text.old.items ++ start_line names.now start.now) }
{
    push(text, b"start ")?;
    push_number(alloc, text, u32::from(start.num))?;
    push(text, b"/")?;
    push_number(alloc, text, u32::from(start.den))?;
    push_name(text, names, start.symbol)?;
    push(text, b"\n")
}

/// Appends a line of a word and a number.
fn push_line(alloc: Global, text: &mut Vec<u8>, word: &[u8], number: u32) -> Result<(), AllocError>
    ensures { OnOk result (text.new.items ≡ text.old.items ++ number_line word.now number) }
{
    push(text, word)?;
    push(text, b" ")?;
    push_number(alloc, text, number)?;
    push(text, b"\n")
}

/// Appends the line of the weights of onsets.
fn push_weights(alloc: Global, text: &mut Vec<u8>, grammar: &Grammar) -> Result<(), AllocError>
    ensures { OnOk result (text.new.items ≡ text.old.items ++ weight_line grammar.now) }
{
    if grammar.version != 2 {
        return push_line(alloc, text, b"onset", grammar.early);
    }
    push(text, b"onset ")?;
    push_number(alloc, text, grammar.early)?;
    push(text, b" ")?;
    push_number(alloc, text, grammar.late)?;
    push(text, b"\n")
}

/// Appends the header.
fn push_header(alloc: Global, text: &mut Vec<u8>, grammar: &Grammar) -> Result<(), AllocError>
    ensures { OnOk result (text.new.items ≡ text.old.items ++ header_text grammar.now) }
{
    push_line(alloc, text, b"rhythm", u32::from(grammar.version))?;
    push_line(alloc, text, b"resolution", u32::from(grammar.resolution))?;
    push_line(alloc, text, b"window", grammar.window)?;
    push_weights(alloc, text, grammar)
}

/// Appends the start lines.
fn push_starts(
    alloc: Global,
    text: &mut Vec<u8>,
    names: &[Name],
    starts: &[Start],
) -> Result<(), AllocError>
    requires { All (λ s. s.symbol < length names.now) starts.now }
    ensures { OnOk result (text.new.items ≡ text.old.items ++ start_lines names.now starts.now) }
{
    for start in starts {
        push_start(alloc, text, names, start)?;
    }
    Ok(())
}

/// Appends the rule lines.
fn push_rules(
    alloc: Global,
    text: &mut Vec<u8>,
    names: &[Name],
    rules: &[Rule],
) -> Result<(), AllocError>
    requires sides { All (λ r. r.lhs < length names.now) rules.now }
    requires bodies { (version : ℕ) × All (λ r. IsBody version (length names.now) r.body) rules.now }
    ensures { OnOk result (text.new.items ≡ text.old.items ++ rule_lines names.now rules.now) }
{
    for rule in rules {
        push_rule(alloc, text, names, rule)?;
    }
    Ok(())
}

/// The text of a grammar: what a grammar file says it with, without comments and empty lines, in the spelling with one space
/// between words and no leading zeros.
pub fn print_grammar(alloc: Global, grammar: &Grammar) -> Result<Vec<u8>, AllocError>
    requires { IsReadable grammar.now }
    ensures { IfOk result (λ text. text.items ≡ printed grammar.now) }
{
    let mut text = Vec::new(alloc);
    push_header(alloc, &mut text, grammar)?;
    push_starts(alloc, &mut text, &grammar.names, &grammar.starts)?;
    push_rules(alloc, &mut text, &grammar.names, &grammar.rules)?;
    Ok(text)
}
