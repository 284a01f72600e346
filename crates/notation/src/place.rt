ghost use Rattle.notation.specs.Places as places;
ghost use Rattle.notation.specs.Places.{IsOddPart};
ghost use Rattle.std.specs.Prelude.{◌≡◌, ◌≤◌};

use crate::odd::Odd;
use durations::Grid;
use rhythm_base::Units;

/// The parts of a whole note.
pub(crate) fn whole_of(resolution: Units) -> Grid
    ensures is { result ≡ places.whole_of resolution }
    ensures some { 1 ≤ result }
{
    Grid::of(64 * u64::from(resolution.count()))
}

/// The parts of a quarter note.
pub(crate) fn quarter_of(resolution: Units) -> u64
    ensures is { result ≡ places.quarter_of resolution }
    ensures some { 1 ≤ result }
{
    16 * u64::from(resolution.count())
}

/// The odd part of a number.
pub(crate) fn odd_part(number: Units) -> Odd
    ensures { IsOddPart number result }
{
    let mut odd = u64::from(number.count());
    'halvings: while odd % 2 == 0 {
        odd /= 2;
    }
    Odd::of(odd)
}

/// Whether a place is a whole number of halves, quarters, eighths .. of a whole note.
pub(crate) fn is_plain(odd: Odd, place: u64) -> bool
    ensures { result ≡ places.is_plain odd place }
{
    place % odd.count() == 0
}

/// Whether a length is a whole note, or a half, a quarter, an eighth .. of one.
pub(crate) fn is_halved(whole: Grid, len: u64) -> bool
    requires { 1 ≤ len }
    ensures { result ≡ places.is_halved whole len }
{
    let whole = whole.count();
    whole % len == 0 && (whole / len).is_power_of_two()
}
