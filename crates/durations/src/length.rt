ghost use Rattle.std.specs.Prelude.{◌≡◌, ◌*◌, ◌≤◌, IfNone, IfSome};
ghost use Rattle.std.specs.Int.{IsGcd};
ghost use Rattle.durations.specs.Value.{IsSingle};
ghost use Rattle.durations.specs.declared.value.Recip.{Recip};
ghost use Rattle.durations.specs.Values.{HasSingle, IsLowest, IsPlain, IsTaken};

use crate::grid::Grid;
use crate::value::{Recip, Value};

/// A length of `parts` of `whole` equal parts of a whole note.
#[derive(Clone, Copy, Debug, PartialEq, Eq)]
pub struct Length {
    pub parts: u64,
    pub whole: u64,
}

/// The greatest common divisor, by Euclid's algorithm.
fn gcd(a: u64, b: u64) -> u64
    ensures { IsGcd a b result }
{
    let mut x = a;
    let mut y = b;
    'rests: while y != 0 {
        let rest = x % y;
        x = y;
        y = rest;
    }
    x
}

/// The length in lowest terms.
pub fn lowest(length: Length) -> Length
    requires { 1 ≤ length.whole }
    ensures { IsLowest length.parts length.whole result.parts result.whole }
{
    let divisor = gcd(length.parts, length.whole);
    Length {
        parts: length.parts / divisor,
        whole: length.whole / divisor,
    }
}

/// So many parts of a whole note in lowest terms.
pub(crate) fn lowest_parts(parts: u64, whole: Grid) -> (u64, Grid)
    ensures lowest { IsLowest parts whole result.0 result.1 }
    ensures some { 1 ≤ result.1 }
{
    let length = lowest(Length {
        parts,
        whole: whole.count(),
    });
    (length.parts, Grid::of(length.whole))
}

/// The one value of a length in lowest terms, where it is one.
pub fn single(parts: u64, whole: Grid) -> Option<Value>
    ensures one { IfSome result (λ v. IsSingle parts whole v) }
    ensures none { IfNone result (HasSingle parts whole → ⊥) }
{
    let (recip, dots) = match (parts, whole.count()) {
        (1, whole) => (Recip::Of(whole as u32), 0),
        (2, 1) => (Recip::Breve, 0),
        (3, 1) => (Recip::Breve, 1),
        (4, 1) => (Recip::Long, 0),
        (3, whole) if whole % 2 == 0 => (Recip::Of((whole / 2) as u32), 1),
        (7, whole) if whole % 4 == 0 => (Recip::Of((whole / 4) as u32), 2),
        _ => return None,
    };
    Some(Value { recip, dots })
}

/// The value without dots that is so many parts, where it is one.
fn plain(parts: u64, whole: Grid) -> Option<Recip>
    requires { 1 ≤ parts }
    ensures one { IfSome result (λ r. IsPlain parts whole r) }
    ensures none { IfNone result ((r : Recip) → IsPlain parts whole r → ⊥) }
{
    let whole = whole.count();
    if whole % parts == 0 {
        Some(Recip::Of((whole / parts) as u32))
    } else if parts == 2 * whole {
        Some(Recip::Breve)
    } else if parts == 4 * whole {
        Some(Recip::Long)
    } else {
        None
    }
}

/// What is taken off a length in lowest terms that is no single value: the parts and the value without dots that they are.
pub fn taken(parts: u64, whole: Grid) -> (u64, Recip)
    requires { 1 ≤ parts }
    ensures { IsTaken parts whole result.0 result.1 }
{
    let mut power = 1 << parts.ilog2();
    'powers: loop {
        if let Some(recip) = plain(power, whole) {
            return (power, recip);
        }
        power /= 2;
    }
}
