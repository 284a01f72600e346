ghost use Rattle.rhythm_base.specs.Signatures.{IsSignature};
ghost use Rattle.durations.specs.Spans.{IsFrac, parts_of_unit, sound_length};
ghost use Rattle.rhythm_base.specs.SoundKinds.{is_tie};
ghost use Rattle.std.specs.Prelude.{◌≡◌, ◌^◌, ◌*◌, ◌<◌, ◌≤◌, All, option_map, slice_get, sum_by, take_while};

use crate::kind::is_tie;
use durations::{Length, lowest};
use rhythm_base::{Bar, Frac, Sound, Units};

/// So many parts of a whole note, where there are 64 for each unit of a bar, as a number of whole notes.
pub fn frac(parts: u64, resolution: Units) -> Frac
    ensures { IsFrac parts (64 * resolution) result }
{
    let length = lowest(Length {
        parts,
        whole: 64 * u64::from(resolution.count()),
    });
    Frac {
        num: length.parts,
        den: length.whole,
    }
}

/// The length of a sound, in parts of a whole note.
pub fn sound_length(bars: &[Bar], sound: &Sound) -> u64
    requires { All (λ b. IsSignature b.num b.den) bars.now }
    ensures { result ≡ sound_length bars.now sound.now }
{
    match bar_at(bars, sound.bar) {
        Some(bar) => sound.width as u64 * parts_of_unit(*bar),
        None => 0,
    }
}

/// The bar of this number, counted from 0.
fn bar_at(bars: &[Bar], number: u32) -> Option<&Bar>
    ensures { option_map (λ b. b.now) result ≡ slice_get bars.now number }
{
    bars.get(number as usize)
}

/// The length of a unit of the bar, in parts of a whole note.
fn parts_of_unit(bar: Bar) -> u64
    requires { IsSignature bar.num bar.den }
    ensures value { result ≡ parts_of_unit bar }
    ensures small { result ≤ 4096 }
{
    u64::from(bar.num) * (64 / u64::from(bar.den))
}

/// The length of the ties that these sounds begin with.
pub fn ties_length(bars: &[Bar], sounds: &[Sound]) -> u64
    requires signatures { All (λ b. IsSignature b.num b.den) bars.now }
    requires small { sum_by (sound_length bars.now) sounds.now < 2 ^ 64 }
    ensures { result ≡ sum_by (sound_length bars.now) (take_while (λ t. is_tie t.kind) sounds.now) }
{
    let mut total = 0;
    'ties: for sound in sounds {
        if !is_tie(sound.kind) {
            return total;
        }
        total += sound_length(bars, sound);
    }
    total
}
