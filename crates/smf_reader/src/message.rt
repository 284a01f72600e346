ghost use Rattle.std.specs.Prelude.{◌≡◌, ◌<◌, ◌≤◌, IfOk, length};
ghost use Rattle.smf_reader.specs.Message.{channel_message, message, note_meaning, running_after, status, system_exclusive};

use crate::bytes::{read_byte, read_content, read_data_byte};
use crate::fault::SmfFault;
use crate::meaning::Meaning;
use crate::meta::read_meta;
use crate::quantity::read_quantity;
use rhythm_base::What;

/// The least status of a message that is no channel message.
const SYSTEM_EXCLUSIVE: u8 = 0xf0;

const ESCAPE: u8 = 0xf7;

const META: u8 = 0xff;

/// The status of the message at this place, and the place after it. A data byte there stands for the last channel status.
#[tactic(auto, unfolding(crate::specs::Message::status))]
pub(crate) fn read_status(
    bytes: &[u8],
    running: Option<u8>,
    at: usize,
) -> Result<(u8, usize), SmfFault>
    ensures value { result ≡ status bytes.now running at }
    ensures here { IfOk result (λ s. at < length bytes.now) }
    ensures later { IfOk result (λ s. at ≤ s.1) }
    ensures within { IfOk result (λ s. s.1 ≤ length bytes.now) }
{
    let byte = read_byte(bytes, at)?;
    if byte >= 128 {
        return Ok((byte, at + 1));
    }
    match running {
        Some(status) => Ok((status, at)),
        None => Err(SmfFault::NoStatus { at: at as u64 }),
    }
}

/// The last channel status after a message of this status.
pub(crate) fn running_after(status: u8, running: Option<u8>) -> Option<u8>
    ensures { result ≡ running_after status running }
{
    if status < SYSTEM_EXCLUSIVE {
        Some(status)
    } else {
        running
    }
}

/// What a channel message of two data bytes says.
fn note_meaning(status: u8, key: u8, velocity: u8) -> Meaning
    ensures { result ≡ note_meaning status key velocity }
{
    let channel = status % 16;
    match status / 16 {
        9 if velocity > 0 => Meaning::Event(What::On { channel, key }),
        8 | 9 => Meaning::Event(What::Off { channel, key }),
        _ => Meaning::Skipped,
    }
}

/// What a channel message says whose data stand at this place, and the place after it.
#[tactic(auto, unfolding(crate::specs::Message::channel_message))]
fn read_channel_message(bytes: &[u8], status: u8, at: usize) -> Result<(Meaning, usize), SmfFault>
    ensures value { result ≡ channel_message bytes.now status at }
    ensures later { IfOk result (λ m. at < m.1) }
    ensures within { IfOk result (λ m. m.1 ≤ length bytes.now) }
{
    let first = read_data_byte(bytes, at)?;
    if matches!(status / 16, 0xc | 0xd) {
        return Ok((Meaning::Skipped, at + 1));
    }
    let second = read_data_byte(bytes, at + 1)?;
    Ok((note_meaning(status, first, second), at + 2))
}

/// A system exclusive event, by the place after its status, and the place after the event.
#[tactic(auto, unfolding(crate::specs::Message::system_exclusive))]
fn read_system_exclusive(bytes: &[u8], at: usize) -> Result<(Meaning, usize), SmfFault>
    requires { at ≤ length bytes.now }
    ensures value { result ≡ system_exclusive bytes.now at }
    ensures later { IfOk result (λ m. at < m.1) }
    ensures within { IfOk result (λ m. m.1 ≤ length bytes.now) }
{
    let (size, place) = read_quantity(bytes, at)?;
    read_content(bytes, place, size)?;
    Ok((Meaning::Skipped, place + size as usize))
}

/// What the message at this place says, of this status with the place `after` after it, and the place after the message.
#[tactic(auto, unfolding(crate::specs::Message::message))]
pub(crate) fn read_message(
    bytes: &[u8],
    at: usize,
    status: u8,
    after: usize,
) -> Result<(Meaning, usize), SmfFault>
    requires here { at < length bytes.now }
    requires order { at ≤ after }
    requires within { after ≤ length bytes.now }
    ensures value { result ≡ message bytes.now at status after }
    ensures later { IfOk result (λ m. at < m.1) }
    ensures within { IfOk result (λ m. m.1 ≤ length bytes.now) }
{
    match status {
        META => read_meta(bytes, at),
        SYSTEM_EXCLUSIVE | ESCAPE => read_system_exclusive(bytes, after),
        _ if status < SYSTEM_EXCLUSIVE => read_channel_message(bytes, status, after),
        _ => Err(SmfFault::BadStatus { at: at as u64 }),
    }
}
