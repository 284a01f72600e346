ghost use Rattle.std.specs.Prelude.{◌≡◌, ◌+◌, ◌<◌, ◌≤◌, IfOk, length, drop};
ghost use Rattle.smf_reader.specs.Outcome.{seen_file};
ghost use Rattle.smf_reader.specs.Bytes.{byte, data_byte, content};
ghost use Rattle.smf_reader.specs.declared.fault.SmfFault.TheVariants.{Truncated};

use crate::fault::SmfFault;

/// The fault of bytes that end where more are needed.
pub(crate) fn truncated(bytes: &[u8]) -> SmfFault
    ensures { result ≡ Truncated (length bytes.now) }
{
    SmfFault::Truncated {
        at: bytes.len() as u64,
    }
}

/// The bytes from this place on.
pub(crate) fn bytes_from(bytes: &[u8], at: usize) -> &[u8]
    requires { at ≤ length bytes.now }
    ensures { result.now ≡ drop at bytes.now }
{
    bytes.split_at(at).1
}

/// The byte at this place.
pub(crate) fn read_byte(bytes: &[u8], at: usize) -> Result<u8, SmfFault>
    ensures value { result ≡ byte bytes.now at }
    ensures within { IfOk result (λ _. at < length bytes.now) }
{
    match bytes.get(at) {
        Some(byte) => Ok(*byte),
        None => Err(truncated(bytes)),
    }
}

/// The data byte at this place, 0 to 127.
#[tactic(auto, unfolding(crate::specs::Bytes::data_byte))]
pub(crate) fn read_data_byte(bytes: &[u8], at: usize) -> Result<u8, SmfFault>
    ensures value { result ≡ data_byte bytes.now at }
    ensures within { IfOk result (λ _. at < length bytes.now) }
{
    let byte = read_byte(bytes, at)?;
    if byte < 128 {
        Ok(byte)
    } else {
        Err(SmfFault::BadData { at: at as u64 })
    }
}

/// The bytes from this place on, as many as `size`.
pub(crate) fn read_content(bytes: &[u8], at: usize, size: u32) -> Result<&[u8], SmfFault>
    requires { at ≤ length bytes.now }
    ensures value { seen_file (λ c. c.now) result ≡ content bytes.now at size }
    ensures within { IfOk result (λ _. at + size ≤ length bytes.now) }
{
    match bytes_from(bytes, at).split_at_checked(size as usize) {
        Some((content, _)) => Ok(content),
        None => Err(truncated(bytes)),
    }
}
