ghost use Rattle.kern_reader.specs.Lines as definitions;
ghost use Rattle.kern_reader.specs.Lines.{IsWellLine, data_line, line_of, other_line, signature_line, takes_memory};
ghost use Rattle.kern_reader.specs.Text.{columns};
ghost use Rattle.kern_reader.specs.Tokens.{all_tokens};
ghost use Rattle.std.specs.Char.{is_ascii_digit};
ghost use Rattle.std.specs.List.{list_all};
ghost use Rattle.std.specs.Prelude.{◌≡◌, IfOk, OnErr, drop, true};

use crate::line::KernLine;
use crate::line_words::{all_are, begins_with, has_refused_word, has_signature, width};
use crate::number::are_digits;
use crate::piece::first_piece;
use crate::signature::signature;
use crate::tokens::tokens;
use std::alloc::{AllocError, Global};

/// The line of a signature in all columns.
fn signature_line(first: &[u8]) -> KernLine
    ensures line { result ≡ definitions.signature_line (definitions.signature_of first.now) }
    ensures well { IsWellLine result }
{
    if first.len() < 2 {
        return KernLine::Unread;
    }
    match signature(first) {
        Some(signature) => KernLine::Signature(signature),
        None => KernLine::Unread,
    }
}

/// What a line of interpretations says.
fn interpretation(first: &[u8], line: &[u8]) -> KernLine
    ensures line { result ≡ definitions.interpretation first.now (columns line.now) }
    ensures well { IsWellLine result }
{
    if has_refused_word(line) {
        KernLine::Unread
    } else if !has_signature(line) {
        KernLine::Other
    } else if all_are(first, line) {
        signature_line(first)
    } else {
        KernLine::Unread
    }
}

/// What a line that begins like a barline says.
fn barline(first: &[u8], line: &[u8]) -> KernLine
    ensures line { result ≡ definitions.barline_said first.now (columns line.now) }
    ensures well { IsWellLine result }
{
    if !all_are(first, line) {
        KernLine::Unread
    } else if first == b"==".as_slice() {
        KernLine::LastBarline
    } else if are_digits_after(first) {
        KernLine::Barline
    } else {
        KernLine::Unread
    }
}

/// Whether there is nothing but digits after the first byte.
fn are_digits_after(word: &[u8]) -> bool
    ensures { result ≡ list_all is_ascii_digit (drop 1 word.now) }
{
    match word {
        [] => true,
        [_first, rest @ ..] => are_digits(rest),
    }
}

#[tactic(auto, using(crate::proofs::LinesToRead::data_takes))]
/// What a data line says.
fn data(alloc: Global, line: &[u8]) -> Result<KernLine, AllocError>
    ensures line { IfOk result (λ l. l ≡ data_line (all_tokens (columns line.now))) }
    ensures well { IfOk result IsWellLine }
    ensures memory { takes_memory (data_line (all_tokens (columns line.now))) ≡ true }
{
    match tokens(alloc, line)? {
        Some(tokens) => Ok(KernLine::Data(tokens)),
        None => Ok(KernLine::Unread),
    }
}

#[tactic(auto, unfolding(crate::specs::Lines::other_line))]
/// What a line says that is no head and no end.
fn other_line(alloc: Global, line: &[u8]) -> Result<KernLine, AllocError>
    ensures line { IfOk result (λ l. l ≡ definitions.other_line (columns line.now)) }
    ensures well { IfOk result IsWellLine }
    ensures memory { OnErr result (takes_memory (definitions.other_line (columns line.now)) ≡ true) }
{
    let (first, _rest) = first_piece(line, b'\t');
    if begins_with(b'*', first) {
        Ok(interpretation(first, line))
    } else if begins_with(b'=', first) {
        Ok(barline(first, line))
    } else {
        data(alloc, line)
    }
}

#[tactic(auto, unfolding(crate::specs::Lines::line_of))]
/// What a line says.
pub(crate) fn line(alloc: Global, text: &[u8]) -> Result<KernLine, AllocError>
    ensures line { IfOk result (λ l. l ≡ line_of text.now) }
    ensures well { IfOk result IsWellLine }
    ensures memory { OnErr result (takes_memory (line_of text.now) ≡ true) }
{
    if all_are(b"**kern", text) {
        Ok(KernLine::Heading(width(text)))
    } else if all_are(b"*-", text) {
        Ok(KernLine::Ending)
    } else {
        other_line(alloc, text)
    }
}
