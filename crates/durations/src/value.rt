ghost use Rattle.std.specs.Prelude.{◌≡◌, ◌≤◌};
ghost use Rattle.durations.specs.Value as lengths;
ghost use Rattle.durations.specs.Value.{IsWide};

use crate::grid::Grid;

/// A value without its dots, as the reciprocal of a whole note that names it.
#[derive(Clone, Copy, Debug, PartialEq, Eq)]
pub enum Recip {
    /// One of so many equal parts of a whole note, from 1 on: 4 is a quarter.
    Of(u32),
    /// Two whole notes.
    Breve,
    /// Four whole notes.
    Long,
}

/// A written value. Each dot adds half of what was added before it.
#[derive(Clone, Copy, Debug, PartialEq, Eq)]
pub struct Value {
    pub recip: Recip,
    /// None, one or two.
    pub dots: u8,
}

/// How many of `whole` equal parts of a whole note the value is long.
pub fn width(value: Value, whole: Grid) -> u64
    requires dots { value.dots ≤ 2 }
    requires wide { IsWide whole value }
    ensures { result ≡ lengths.width whole value }
{
    let whole = whole.count();
    let (parts, grid) = match value.recip {
        Recip::Of(number) => (1, u64::from(number)),
        Recip::Breve => (2, 1),
        Recip::Long => (4, 1),
    };
    let halves = 1 << value.dots;
    parts * (2 * halves - 1) * whole / (grid * halves)
}
