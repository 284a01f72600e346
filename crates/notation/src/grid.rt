ghost use Rattle.notation.specs.Notes.{IsGreatestPower, IsGrid};
ghost use Rattle.std.specs.Int.{IsGcd};
ghost use Rattle.std.specs.Prelude.{◌≡◌, ◌≤◌};

use crate::odd::Odd;
use crate::token::Token;

/// The greatest common divisor, by Euclid's algorithm.
fn gcd(a: u64, b: u64) -> u64
    ensures { IsGcd a b result }
{
    let mut x = a;
    let mut y = b;
    'rests: while y != 0 {
        let rest = x % y;
        x = y;
        y = rest;
    }
    x
}

/// The greatest number of parts in which the places of the tokens count, as a divisor of the odd part of the resolution.
pub(crate) fn grid(odd: Odd, tokens: &[Token]) -> u64
    ensures { IsGrid odd tokens.now result }
{
    let mut grid = odd.count();
    'tokens: for token in tokens {
        grid = gcd(grid, gcd(token.start, token.end));
    }
    grid
}

/// The greatest power of two that is at most a number.
pub(crate) fn greatest_power(number: u64) -> u64
    requires { 1 ≤ number }
    ensures { IsGreatestPower number result }
{
    1 << number.ilog2()
}
