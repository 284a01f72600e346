ghost use Rattle.durations.specs.Value as lengths;
ghost use Rattle.kern_reader.specs.Columns.{IsGridWith, token_values};
ghost use Rattle.kern_reader.specs.Tokens.{IsWellToken};
ghost use Rattle.text_words.specs.Values.{IsWellValue};
ghost use Rattle.std.specs.List.{flat_map};
ghost use Rattle.std.specs.Prelude.{◌≡◌, ◌≤◌, ◌*◌, ◌^◌, ◌∷◌, [], All, option_to_list};

use crate::token::Token;
use durations::{Grid, Length, Recip, Value, lowest};

/// In how many parts the dots of a value cut it.
fn halves(value: Value) -> u64
    requires { IsWellValue value }
    ensures halves { result ≡ 2 ^ value.dots }
    ensures some { 1 ≤ result }
    ensures few { result ≤ 4 }
{
    match value.dots {
        0 => 1,
        1 => 2,
        _ => 4,
    }
}

#[tactic(auto, using(crate::proofs::GridLemmas::counted))]
/// In how many parts of a whole note a value counts.
fn value_grid(value: Value) -> u64
    requires { IsWellValue value }
    ensures grid { result ≡ lengths.value_grid value }
    ensures some { 1 ≤ result }
    ensures few { result ≤ 245760 }
{
    let parts = match value.recip {
        Recip::Of(number) => u64::from(number),
        Recip::Breve => 1,
        Recip::Long => 1,
    };
    parts * halves(value)
}

#[tactic(auto, using(crate::proofs::GridLemmas::counted))]
/// How many parts of its grid a value is long.
fn value_parts(value: Value) -> u64
    requires { IsWellValue value }
    ensures parts { result ≡ lengths.parts value }
    ensures few { result ≤ 28 }
{
    let plain: u64 = match value.recip {
        Recip::Of(_number) => 1,
        Recip::Breve => 2,
        Recip::Long => 4,
    };
    plain * (2 * halves(value) - 1)
}

#[tactic(auto, using(crate::proofs::GridLemmas::counted, crate::proofs::GridLemmas::width_few))]
/// How many parts of a grid, in which it counts, a value is long.
pub(crate) fn width(value: Value, grid: Grid) -> u64
    requires { IsWellValue value }
    ensures width { result ≡ lengths.width grid value }
    ensures few { result ≤ 7 * grid }
{
    value_parts(value) * grid.count() / value_grid(value)
}

/// The grid with one more value, where it is not too fine.
fn grid_with_value(grid: Grid, value: Value) -> Option<Grid>
    requires { IsWellValue value }
    ensures { IsGridWith grid (value ∷ []) result }
{
    let whole = grid.count();
    let length = lowest(Length {
        parts: value_grid(value),
        whole,
    });
    Grid::new(whole * length.parts)
}

/// The value of a token, where it has one.
pub(crate) fn token_value(token: Token) -> Option<Value>
    ensures { token_values token ≡ option_to_list result }
{
    match token {
        Token::Bar(_signature) => None,
        Token::Null => None,
        Token::Rest(value) => Some(value),
        Token::Grace(_keys) => None,
        Token::Chord(writing, _keys) => Some(writing.value),
    }
}

/// The grid with the value of one more token, where it is not too fine.
fn grid_with_token(grid: Grid, token: Token) -> Option<Grid>
    requires { IsWellToken token }
    ensures { IsGridWith grid (token_values token) result }
{
    match token_value(token) {
        Some(value) => grid_with_value(grid, value),
        None => Some(grid),
    }
}

/// The grid with the values of these tokens, where it is not too fine.
pub(crate) fn grid_with_tokens(grid: Grid, tokens: &[Token]) -> Option<Grid>
    requires { All IsWellToken tokens.now }
    ensures { IsGridWith grid (flat_map token_values tokens.now) result }
{
    let mut finer = grid;
    'tokens: for token in tokens {
        finer = grid_with_token(finer, *token)?;
    }
    Some(finer)
}
