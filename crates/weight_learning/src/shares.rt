ghost use Rattle.std.specs.Prelude.{◌≡◌, ◌^◌, ◌≤◌};
ghost use Rattle.weight_learning.specs.Shares.{share};

use crate::roots::ROOTS;

/// 2 ^ (31 - k / 64), nearly.
pub fn share(k: u64) -> u64
    ensures value { result ≡ share k }
    ensures few { result ≤ 2 ^ 31 }
{
    if k >= 64 * 31 {
        return 0;
    }
    let bits = k.div_ceil(64);
    let threshold = ROOTS[(64 * bits - k) as usize].div_ceil(512);
    threshold >> bits
}
