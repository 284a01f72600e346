ghost use Rattle.kern_reader.specs.Text.{columns};
ghost use Rattle.kern_reader.specs.Tokens.{IsWellToken, all_tokens, rest_of, token_of};
ghost use Rattle.std.specs.Prelude.{◌≡◌, All, IfOk, IfSome};

use crate::chord::chord;
use crate::line::Tokens;
use crate::note::split_value;
use crate::piece::first_piece;
use crate::token::Token;
use crate::value::value;
use std::alloc::{AllocError, Global};

/// The rest of a value.
fn rest(text: &[u8]) -> Option<Token>
    ensures token { result ≡ rest_of text.now }
    ensures well { IfSome result IsWellToken }
{
    match value(text) {
        Some(value) => Some(Token::Rest(value)),
        None => None,
    }
}

#[tactic(auto, unfolding(crate::specs::Tokens::token_of))]
/// The token that a column says.
fn token(text: &[u8]) -> Option<Token>
    ensures token { result ≡ token_of text.now }
    ensures well { IfSome result IsWellToken }
{
    if text == b".".as_slice() {
        return Some(Token::Null);
    }
    let (value_text, after) = split_value(text);
    if after == b"r".as_slice() {
        rest(value_text)
    } else {
        chord(text)
    }
}

/// The tokens of a data line, one for each column, where each column is one.
pub(crate) fn tokens(alloc: Global, line: &[u8]) -> Result<Option<Tokens>, AllocError>
    ensures tokens { IfOk result (λ ts. ts ≡ all_tokens (columns line.now)) }
    ensures well { IfOk result (λ ts. IfSome ts (All IsWellToken)) }
{
    let mut tokens = Vec::new(alloc);
    let mut rest = Some(line);
    'columns: while let Some(text) = rest {
        let (column, after) = first_piece(text, b'\t');
        match token(column) {
            Some(token) => tokens.push(token)?,
            None => return Ok(None),
        }
        rest = after;
    }
    Ok(Some(Tokens::of(tokens)))
}
