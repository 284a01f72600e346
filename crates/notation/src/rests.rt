ghost use Rattle.derivation.specs.Score.{IsScoreBar};
ghost use Rattle.notation.specs.Places.{whole_of};
ghost use Rattle.notation.specs.Rests as rests;
ghost use Rattle.notation.specs.Rests.{joined_rests, last_number};
ghost use Rattle.notation.specs.Runs.{AreRun};
ghost use Rattle.notation.specs.Tokens.{ends, is_silent};
ghost use Rattle.std.specs.List.{prefix_len};
ghost use Rattle.std.specs.Prelude.{◌≡◌, ◌*◌, ◌<◌, ◌≤◌, ◌∷◌, All, IfOk, length};

use crate::place::{is_halved, whole_of};
use crate::token::{Token, past};
use derivation::ScoreBar;
use rhythm_base::Units;
use std::alloc::{AllocError, Global};

/// Whether one rest may stand from here to there.
fn may_stand(resolution: Units, bar: &ScoreBar, start: u64, end: u64) -> bool
    requires some { start < end }
    requires few { end ≤ 64 * whole_of resolution }
    ensures { result ≡ rests.may_stand resolution bar.now start end }
{
    let len = end - start;
    let grid = whole_of(resolution);
    let whole = grid.count();
    let beats = len * u64::from(bar.den);
    start % len == 0
        && (bar.num % 3 == 0 && beats == 3 * whole
            || is_halved(grid, len) && (beats <= whole || bar.num.is_power_of_two()))
}

/// How many of the tokens are rests, before one that is not.
fn rests_before(tokens: &[Token]) -> usize
    ensures { result ≡ prefix_len is_silent tokens.now }
{
    tokens.iter().take_while(|token| token.is_silent()).count()
}

/// The number of the last of these rests at whose end one rest may end that begins here.
fn last_standing(resolution: Units, bar: &ScoreBar, start: u64, later: &[Token]) -> usize
    requires { All (λ t. (start < t.end) × (t.end ≤ 64 * whole_of resolution)) later.now }
    ensures { result ≡ last_number (rests.may_stand resolution bar.now start) (ends later.now) }
{
    let mut last = 0;
    'rests: for (index, rest) in later.iter().enumerate() {
        if may_stand(resolution, bar, start, rest.end) {
            last = index + 1;
        }
    }
    last
}

/// How many of the tokens after a token are joined to it: of a rest so many rests that one may stand for them.
fn rests_taken(resolution: Units, bar: &ScoreBar, token: &Token, more: &[Token]) -> usize
    requires { AreRun resolution (token.now ∷ more.now) }
    ensures taken { result ≡ rests.rests_taken resolution bar.now token.now more.now }
    ensures few { result ≤ length more.now }
{
    if !token.is_silent() {
        return 0;
    }
    let later = &more[..rests_before(more)];
    last_standing(resolution, bar, token.start, later)
}

/// The tokens, from left to right, with one rest in place of several where it may stand for them.
pub(crate) fn join_rests<'a>(
    alloc: Global,
    resolution: Units,
    bar: &ScoreBar,
    tokens: &[Token<'a>],
) -> Result<Vec<Token<'a>>, AllocError>
    requires { AreRun resolution tokens.now }
    ensures { IfOk result (λ v. v.items ≡ joined_rests resolution bar.now tokens.now) }
{
    let mut joined = Vec::with_capacity(alloc, tokens.len())?;
    let mut later = tokens;
    'tokens: while let [token, more @ ..] = later {
        let taken = rests_taken(resolution, bar, token, more);
        joined.push(token.joined(&more[..taken]))?;
        later = past(more, taken);
    }
    Ok(joined)
}
