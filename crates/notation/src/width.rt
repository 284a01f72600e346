ghost use Rattle.durations.specs.Value as lengths;
ghost use Rattle.notation.specs.Spelling.{IsNoteValue};
ghost use Rattle.std.specs.Prelude.{◌≡◌};

use durations::{Grid, Recip, Value};

/// How many of `whole` equal parts of a whole note the value is long.
pub(crate) fn width(value: Value, whole: Grid) -> u64
    requires { IsNoteValue value }
    ensures { result ≡ lengths.width whole value }
{
    let whole = whole.count();
    let (parts, grid) = match value.recip {
        Recip::Of(number) => (1, u64::from(number)),
        Recip::Breve => (2, 1),
        Recip::Long => (4, 1),
    };
    let halves = 1 << value.dots;
    parts * (2 * halves - 1) * whole / (grid * halves)
}
