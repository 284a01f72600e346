ghost use Rattle.smf_bytes.specs.Message.{HasChannel, message_bytes};
ghost use Rattle.smf_bytes.specs.Quantity.{quantity_bytes};
ghost use Rattle.smf_bytes.specs.declared.quantity.TheConstants.{GREATEST_QUANTITY};
ghost use Rattle.std.specs.Prelude.{◌≡◌, ◌++◌, ◌≤◌, ◌<◌, ◌∷◌, [], OnOk, length};

use crate::quantity::{Quantity, push_quantity};
use rhythm_base::What;
use std::alloc::AllocError;

/// Appends a message of a key after the number of ticks since the event before it, in one piece where these are few, as they
/// mostly are.
#[inline(always)]
#[tactic(auto, using(crate::proofs::ShortForms::one_byte, crate::proofs::ShortForms::two_bytes))]
fn push_key(
    content: &mut Vec<u8>,
    ticks: Quantity,
    status: u8,
    key: u8,
    velocity: u8,
) -> Result<(), AllocError>
    ensures { OnOk result (content.new.items ≡ content.old.items ++ (quantity_bytes ticks ++ status ∷ key ∷ velocity ∷ [])) }
{
    let number = ticks.count();
    let lowest = (number % 128) as u8;
    let low = 128 + (number / 128 % 128) as u8;
    match number {
        0..128 => content.extend_from_slice(&[lowest, status, key, velocity]),
        128..16384 => content.extend_from_slice(&[low, lowest, status, key, velocity]),
        _ => {
            push_quantity(content, ticks)?;
            content.extend_from_slice(&[status, key, velocity])
        }
    }
}

/// Appends a meta event of this type after the number of ticks since the event before it.
fn push_meta(
    content: &mut Vec<u8>,
    ticks: Quantity,
    kind: u8,
    said: &[u8],
) -> Result<(), AllocError>
    requires { length said.now < 128 }
    ensures { OnOk result (content.new.items ≡ content.old.items ++ (quantity_bytes ticks ++ 255 ∷ kind ∷ length said.now ∷ said.now)) }
{
    push_quantity(content, ticks)?;
    content.extend_from_slice(&[0xff, kind, said.len() as u8])?;
    content.extend_from_slice(said)
}

/// Appends the message of what an event says, after the number of ticks since the event before it. It is put where it is
/// called: there it is mostly known what kind of message this is.
#[inline(always)]
pub fn push_event(content: &mut Vec<u8>, ticks: u64, what: What) -> Result<(), AllocError>
    requires early { ticks ≤ GREATEST_QUANTITY }
    requires channel { HasChannel what }
    ensures { OnOk result (content.new.items ≡ content.old.items ++ (quantity_bytes ticks ++ message_bytes what)) }
{
    let ticks = Quantity::of(ticks);
    match what {
        What::On { channel, key } => push_key(content, ticks, 0x90 + channel, key, 0x40),
        What::Off { channel, key } => push_key(content, ticks, 0x80 + channel, key, 0),
        What::Tempo(micros) => {
            let [_, high, middle, low] = micros.to_be_bytes();
            push_meta(content, ticks, 0x51, &[high, middle, low])
        }
        What::Signature { num, dd } => push_meta(content, ticks, 0x58, &[num, dd, 24, 8]),
        What::KeySig(sf) => push_meta(content, ticks, 0x59, &[sf.cast_unsigned(), 0]),
    }
}
