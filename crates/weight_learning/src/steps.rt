ghost use Rattle.std.specs.Prelude.{◌≡◌, ◌^◌, ◌<◌, ◌≤◌};
ghost use Rattle.weight_learning.specs.Steps.{steps};

use crate::roots::roots_up_to;

/// 64 times the binary logarithm of n, rounded down: the whole part by the number of bits, and the 64ths by the roots.
pub fn steps(n: u64) -> u64
    requires some { 1 ≤ n }
    requires few { n < 2 ^ 40 }
    ensures value { result ≡ steps n }
    ensures few { result ≤ 2560 }
{
    let whole = 63 - n.leading_zeros();
    let roots = roots_up_to(n << (40 - whole));
    64 * u64::from(whole) + roots as u64 - 1
}
