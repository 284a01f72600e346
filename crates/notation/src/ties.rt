ghost use Rattle.notation.specs.Notes as notes;
ghost use Rattle.notation.specs.Notes.{is_plain_value, tied_ends};
ghost use Rattle.notation.specs.Rests.{joined_from, last_number};
ghost use Rattle.notation.specs.Spelling.{AreInGrid};
ghost use Rattle.notation.specs.Tokens as tokens;
ghost use Rattle.notation.specs.Tokens.{ends};
ghost use Rattle.std.specs.Prelude.{◌≡◌, ◌≤◌, ◌+◌, All, IfOk, length, take};

use crate::place::is_halved;
use crate::spelling::Spelling;
use crate::token::{Token, past};
use std::alloc::{AllocError, Global};

/// Whether a token that is tied to the next may be joined with it.
fn may_go_on(token: &Token) -> bool
    ensures { result ≡ tokens.may_go_on token.now }
{
    token.goes && !token.is_silent()
}

/// How many of the tokens after a token are each tied to the one before.
fn tied_after(token: &Token, more: &[Token]) -> usize
    ensures few { result ≤ length more.now }
    ensures tied { tied_ends (tokens.may_go_on token.now) more.now ≡ ends (take result more.now) }
{
    let mut goes = may_go_on(token);
    'tokens: for (count, next) in more.iter().enumerate() {
        if !(goes && next.comes) {
            return count;
        }
        goes = may_go_on(next);
    }
    more.len()
}

/// The number of the last of these tokens at whose end a value without dots ends that begins here.
fn last_halved(by: Spelling, start: u64, tied: &[Token]) -> usize
    requires { All (λ t. start + by.grid ≤ t.end) tied.now }
    ensures { result ≡ last_number (is_plain_value by.grid by.whole start) (ends tied.now) }
{
    let grid = by.grid();
    let whole = by.whole();
    let mut last = 0;
    'tokens: for (index, token) in tied.iter().enumerate() {
        if is_halved(whole, (token.end - start) / grid) {
            last = index + 1;
        }
    }
    last
}

/// How many of the tokens after a token are joined to it: so many that are tied as make together a value without dots.
fn ties_taken(by: Spelling, token: &Token, more: &[Token]) -> usize
    requires { All (λ t. token.now.start + by.grid ≤ t.end) more.now }
    ensures taken { result ≡ notes.ties_taken by.grid by.whole token.now more.now }
    ensures few { result ≤ length more.now }
{
    let tied = &more[..tied_after(token, more)];
    last_halved(by, token.start, tied)
}

/// The tokens under a bracket, from left to right, with one in place of several that are tied where they make a value without
/// dots.
pub(crate) fn join_ties<'a>(
    alloc: Global,
    by: Spelling,
    tokens: &[Token<'a>],
) -> Result<Vec<Token<'a>>, AllocError>
    requires { AreInGrid by.grid tokens.now }
    ensures { IfOk result (λ v. v.items ≡ joined_from (notes.ties_taken by.grid by.whole) 0 tokens.now) }
{
    let mut joined = Vec::with_capacity(alloc, tokens.len())?;
    let mut later = tokens;
    'tokens: while let [token, more @ ..] = later {
        let taken = ties_taken(by, token, more);
        joined.push(token.joined(&more[..taken]))?;
        later = past(more, taken);
    }
    Ok(joined)
}
