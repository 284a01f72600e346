ghost use Rattle.performance_prepare.specs.Meter as meters;
ghost use Rattle.std.specs.Prelude.{◌≡◌, IfOk};

use crate::options::Fraction;
use performance_load::Take;
use rhythm_base::Signature;
use std::alloc::{AllocError, Global};

/// The power of two that a denominator is.
fn power_of(den: u8) -> u8
    ensures { result ≡ meters.power_of den }
{
    match den {
        1 => 0,
        2 => 1,
        4 => 2,
        8 => 3,
        16 => 4,
        32 => 5,
        _ => 6,
    }
}

/// The take with this signature in place of its own.
pub fn with_meter(alloc: Global, meter: Fraction, take: Take) -> Result<Take, AllocError>
    ensures { IfOk result (λ t. t ≡ meters.with_meter meter take) }
{
    let signature = Signature {
        tick: 0,
        num: meter.num,
        dd: power_of(meter.den),
    };
    let signatures = vec![in alloc; signature]?;
    Ok(Take { signatures, ..take })
}
