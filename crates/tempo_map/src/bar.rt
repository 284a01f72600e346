ghost use Rattle.rhythm_base.specs.declared.limits.TheConstants.{MOST_BARS};
ghost use Rattle.std.specs.Prelude.{◌≡◌, ◌≤◌, ◌*◌, ◌/◌, map};
ghost use Rattle.std.specs.List.Sorted.{IsNonDecreasing};
ghost use Rattle.rhythm_base.specs.Bars as laying;
ghost use Rattle.tempo_map.specs.Laying.{IsBarAt};

use crate::in_force::signature_in_force;
use rhythm_base::{Bar, BarFault, MOST_BARS, Signature};

/// The beats of the signature in force at a tick, and the power of two that is the value of a beat: 4/4 before the first
/// change.
fn signature_at(signatures: &[Signature], tick: u64) -> (u8, u8)
    requires { IsNonDecreasing (map (λ s. s.tick) signatures.now) }
    ensures { result ≡ laying.signature_at signatures.now tick }
{
    match signature_in_force(signatures, tick) {
        Some(signature) => (signature.num, signature.dd),
        None => (4, 2),
    }
}

/// The bar of this number that begins at a tick, or why none can. `number` is at most the greatest number of bars.
pub fn bar_at(
    division: u16,
    signatures: &[Signature],
    number: usize,
    start: u64,
) -> Result<Bar, BarFault>
    requires signatures { IsNonDecreasing (map (λ s. s.tick) signatures.now) }
    requires number { number ≤ MOST_BARS }
    ensures { IsBarAt division signatures.now number start result }
{
    if number == MOST_BARS as usize {
        return Err(BarFault::TooManyBars { start });
    }
    let (num, dd) = signature_at(signatures, start);
    if num == 0 || num > 64 || dd > 6 {
        return Err(BarFault::BadSignature { num, dd });
    }
    let den = 1 << dd;
    if 4 * u64::from(division) * u64::from(num) % u64::from(den) == 0 {
        Ok(Bar { start, num, den })
    } else {
        Err(BarFault::UnevenBar {
            bar: number as u32,
            num,
            den,
        })
    }
}

/// The ticks of a bar as its signature says.
pub fn nominal(division: u16, bar: Bar) -> u64
    requires { 1 ≤ bar.den }
    ensures { result ≡ (4 * division * bar.num) / bar.den }
{
    4 * u64::from(division) * u64::from(bar.num) / u64::from(bar.den)
}
