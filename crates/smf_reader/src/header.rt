ghost use Rattle.std.specs.Prelude.{◌≡◌, ◌+◌, ◌≤◌, IfOk, length};
ghost use Rattle.smf_reader.specs.Chunk.{number};
ghost use Rattle.smf_reader.specs.Header.{header, header_size};

use crate::bytes::{bytes_from, truncated};
use crate::chunk::read_u32;
use crate::fault::SmfFault;
use byteorder::{BigEndian, ByteOrder};

/// What the header says.
#[derive(Clone, Copy, Debug, PartialEq, Eq)]
pub(crate) struct Header {
    /// The number of tracks that the file counts.
    pub(crate) tracks: u16,
    /// Ticks of a quarter note, 1 to 32,767.
    pub(crate) division: u16,
    /// The place after the header.
    pub(crate) end: usize,
}

/// The number in the two bytes from this place on, the most significant first.
fn read_u16(bytes: &[u8], at: usize) -> u16
    requires { at + 2 ≤ length bytes.now }
    ensures { result ≡ number 2 bytes.now at }
{
    BigEndian::read_u16(bytes_from(bytes, at))
}

/// The length of the header's content, 6 bytes at least.
#[tactic(auto, unfolding(crate::specs::Header::header_size))]
fn read_header_size(bytes: &[u8]) -> Result<u32, SmfFault>
    ensures value { result ≡ header_size bytes.now }
    ensures least { IfOk result (λ n. 6 ≤ n) }
    ensures within { IfOk result (λ n. 8 + n ≤ length bytes.now) }
{
    if !bytes.starts_with(b"MThd") {
        return Err(SmfFault::NotSmf);
    }
    if bytes.len() < 8 {
        return Err(truncated(bytes));
    }
    let size = read_u32(bytes, 4);
    if size < 6 {
        return Err(SmfFault::NotSmf);
    }
    if bytes.len() - 8 < size as usize {
        return Err(truncated(bytes));
    }
    Ok(size)
}

/// What the header at the front says.
#[tactic(auto, unfolding(crate::specs::Header::header))]
pub(crate) fn read_header(bytes: &[u8]) -> Result<Header, SmfFault>
    ensures value { result ≡ header bytes.now }
    ensures within { IfOk result (λ h. h.end ≤ length bytes.now) }
{
    let size = read_header_size(bytes)?;
    let format = read_u16(bytes, 8);
    if format > 1 {
        return Err(SmfFault::Format(format));
    }
    let division = read_u16(bytes, 12);
    if division >= 32768 {
        return Err(SmfFault::Smpte);
    }
    if division == 0 {
        return Err(SmfFault::ZeroDivision);
    }
    Ok(Header {
        tracks: read_u16(bytes, 10),
        division,
        end: 8 + size as usize,
    })
}
