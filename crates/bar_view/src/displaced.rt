ghost use Rattle.bar_view.specs.Displaced.{displacements};
ghost use Rattle.rhythm_base.specs.BarInput.{IsBarInput, IsInner};
ghost use Rattle.std.specs.Prelude.{◌≡◌, ◌≤◌, All, length};

use interval::displacement;
use rhythm_base::{BarInput, Inner};

/// How far chords are displaced that are attached at a unit, together, in 960ths of a quarter.
#[inline(always)]
pub fn displaced(input: &BarInput, chords: &[Inner], unit: u16) -> u64
    requires cell { IsBarInput input.now }
    requires chords { All (IsInner input.now.length) chords.now }
    requires few { length chords.now ≤ 4 }
    requires unit { unit ≤ input.now.resolution }
    ensures value { result ≡ displacements input.now unit chords.now }
    ensures small { result ≤ 983040 }
{
    let length = input.length();
    let resolution = input.resolution();
    let mut total = 0;
    'chords: for chord in chords {
        total += displacement(
            input.num(),
            input.den(),
            length,
            resolution,
            unit,
            chord.onset,
        );
    }
    total
}
