ghost use Rattle.grammar_file.specs.Content.{Content, IsNext, content_after_first, content_from, line_with, next_statement, says_something};
ghost use Rattle.grammar_file.specs.Lines.{is_blank, grammar_lines, without_return, grammar_words};
ghost use Rattle.std.specs.Prelude.{◌+◌, ◌<◌, ◌∷◌, ◌≡◌, ◌≤◌, ◌^◌, IfErr, IfOk, OnOk, length};
ghost use Rattle.grammar_file.specs.Outcome.{FailsWithin};
ghost use Rattle.grammar_file.specs.declared.fault.GrammarWhat.TheVariants.{Memory};

use crate::fault::{GrammarFault, GrammarWhat};
use crate::words::Words;
use std::alloc::{AllocError, Global};
use std::marker::Model;

/// A line that says something.
#[derive(Drop)]
pub(crate) struct Line<'a> {
    /// Its number among all lines, from 1.
    pub(crate) number: u32,
    /// Its words, one at least.
    pub(crate) words: Words<'a>,
}

/// What stands next in a text.
#[derive(Drop)]
pub(crate) enum Next<'a> {
    /// A line that says something.
    Line(Line<'a>),
    /// No such line; the number after that of the last line.
    End(u32),
}

/// Whether the byte parts words.
fn is_blank(byte: u8) -> bool
    ensures { result ≡ is_blank byte }
{
    byte == b' ' || byte == b'\t'
}

/// The line without one carriage return at its end.
fn without_return(line: &[u8]) -> &[u8]
    ensures { result.now ≡ without_return line.now }
{
    match line.strip_suffix(b"\r") {
        Some(front) => front,
        None => line,
    }
}

/// The first line of a text, as its words are read, and the text after it.
fn first_line(text: &[u8]) -> (&[u8], &[u8])
    requires { 0 < length text.now }
    ensures line { grammar_lines text.now ≡ result.0.now ∷ grammar_lines result.1.now }
    ensures shorter { length result.1.now < length text.now }
{
    match text.iter().position(|byte| *byte == b'\n') {
        Some(end) => (without_return(&text[..end]), &text[end + 1..]),
        None => (text, &[]),
    }
}

/// Whether the line has a word, and is no comment.
fn is_content(line: &[u8]) -> bool
    ensures { result ≡ says_something (grammar_words line.now) }
{
    match line.iter().position(|byte| !is_blank(*byte)) {
        Some(first) => line[first] != b'#',
        None => false,
    }
}

/// The words of a line.
fn words(alloc: Global, line: &[u8]) -> Result<Words<'_>, AllocError>
    ensures { IfOk result (λ words. words ≡ grammar_words line.now) }
{
    let words = line
        .split(|byte| is_blank(*byte))
        .filter(|word| !word.is_empty());
    Ok(Words::of(words.collect(alloc)?))
}

/// The lines of a text that say something, from a place on.
#[derive(Drop)]
pub(crate) struct Lines<'a> {
    rest: &'a [u8],
    // the number of the line where the rest begins
    number: u32,
}

impl<'a> Model for Lines<'a> {
    ghost use Rattle.std.specs.Prelude.{◌+◌, ◌<◌, ◌≤◌, ◌^◌, length};
    ghost use Rattle.grammar_file.specs.Content.{Content, content_from};
    ghost use Rattle.grammar_file.specs.Lines.{grammar_lines};

    ghost Value = { Content };

    ghost view = { λ l. content_from l.number (grammar_lines l.rest.now) };

    // so that no number is lost: each line has a byte
    ghost invariant = { λ l. (1 ≤ l.number) × (l.number + length l.rest.now < 2 ^ 32) };
}

impl<'a> Lines<'a> {
    /// The lines of the text.
    pub(crate) fn of(text: &'a [u8]) -> Lines<'a>
        requires { length text.now ≤ 4294967294 }
        ensures { result ≡ content_from 1 (grammar_lines text.now) }
    {
        Lines {
            rest: text,
            number: 1,
        }
    }

    /// The next line, which is then after.
    pub(crate) fn next(&mut self, alloc: Global) -> Result<Next<'a>, GrammarFault>
        ensures next { IfOk result (λ next. next ≡ next_statement self.old) }
        ensures after { OnOk result (self.new ≡ content_after_first self.old) }
        ensures number { IfOk result (IsNext self.old.end) }
        ensures err { IfErr result (λ fault. fault.what ≡ Memory) }
        ensures at { FailsWithin self.old.end result }
    {
        'lines: while !self.rest.is_empty() {
            let number = self.number;
            let (line, rest) = first_line(self.rest);
            self.rest = rest;
            self.number += 1;
            if is_content(line) {
                return numbered(alloc, number, line);
            }
        }
        Ok(Next::End(self.number))
    }
}

/// The line with its number and words.
fn numbered<'a>(alloc: Global, number: u32, line: &'a [u8]) -> Result<Next<'a>, GrammarFault>
    ensures line { IfOk result (λ next. next ≡ line_with number (grammar_words line.now)) }
    ensures err { IfErr result (λ fault. fault.what ≡ Memory) }
    ensures at { IfErr result (λ fault. fault.line ≡ number) }
{
    match words(alloc, line) {
        Ok(words) => Ok(Next::Line(Line { number, words })),
        Err(_) => Err(GrammarFault {
            line: number,
            what: GrammarWhat::Memory,
        }),
    }
}
