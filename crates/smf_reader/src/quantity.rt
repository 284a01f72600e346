ghost use Rattle.std.specs.Prelude.{◌≡◌, ◌<◌, ◌≤◌, IfOk, length};
ghost use Rattle.smf_reader.specs.Quantity.{last_place, quantity, seven_bits};

use crate::bytes::{bytes_from, truncated};
use crate::fault::SmfFault;

/// The place of the first byte without the high bit, where it is one of the first four.
fn last_place(front: &[u8]) -> Option<usize>
    ensures { result ≡ last_place front.now }
{
    front.iter().take(4).position(|byte| *byte < 0x80)
}

/// The number in the low seven bits of each byte, the most significant first.
fn seven_bits(bytes: &[u8]) -> u32
    requires { length bytes.now ≤ 4 }
    ensures { result ≡ seven_bits bytes.now }
{
    let mut number = 0;
    for byte in bytes {
        number = number * 128 + u32::from(*byte % 128);
    }
    number
}

/// The quantity at this place, and the place after it.
#[tactic(auto, unfolding(crate::specs::Quantity::quantity))]
pub(crate) fn read_quantity(bytes: &[u8], at: usize) -> Result<(u32, usize), SmfFault>
    requires { at ≤ length bytes.now }
    ensures value { result ≡ quantity bytes.now at }
    ensures later { IfOk result (λ q. at < q.1) }
    ensures within { IfOk result (λ q. q.1 ≤ length bytes.now) }
{
    let rest = bytes_from(bytes, at);
    match last_place(rest) {
        Some(last) => Ok((seven_bits(rest.split_at(last + 1).0), at + last + 1)),
        None if rest.len() < 4 => Err(truncated(bytes)),
        None => Err(SmfFault::BadQuantity { at: at as u64 + 3 }),
    }
}
