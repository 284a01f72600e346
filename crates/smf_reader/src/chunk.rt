ghost use Rattle.std.specs.Prelude.{◌≡◌, ◌+◌, ◌<◌, ◌≤◌, IfOk, length};
ghost use Rattle.smf_reader.specs.Outcome.{GivesFile, seen_file};
ghost use Rattle.smf_reader.specs.Chunk.{chunk, number, tracks};

use crate::bytes::{bytes_from, truncated};
use crate::fault::SmfFault;
use crate::smf::Track;
use crate::track::read_track;
use byteorder::{BigEndian, ByteOrder};
use std::alloc::Global;

/// A chunk, by its content's first place and the place after it.
#[derive(Clone, Copy, Debug, PartialEq, Eq)]
pub(crate) struct Chunk {
    /// Whether its type is MTrk.
    is_track: bool,
    begin: usize,
    end: usize,
}

/// The number in the four bytes from this place on, the most significant first.
pub(crate) fn read_u32(bytes: &[u8], at: usize) -> u32
    requires { at + 4 ≤ length bytes.now }
    ensures { result ≡ number 4 bytes.now at }
{
    BigEndian::read_u32(bytes_from(bytes, at))
}

/// The chunk at this place.
#[tactic(auto, unfolding(crate::specs::Chunk::chunk))]
fn read_chunk(bytes: &[u8], at: usize) -> Result<Chunk, SmfFault>
    requires { at ≤ length bytes.now }
    ensures value { result ≡ chunk bytes.now at }
    ensures begin { IfOk result (λ c. at < c.begin) }
    ensures order { IfOk result (λ c. c.begin ≤ c.end) }
    ensures within { IfOk result (λ c. c.end ≤ length bytes.now) }
{
    let left = bytes.len() - at;
    if left < 8 {
        return Err(truncated(bytes));
    }
    let size = read_u32(bytes, at + 4) as usize;
    if left - 8 < size {
        return Err(truncated(bytes));
    }
    Ok(Chunk {
        is_track: bytes_from(bytes, at).starts_with(b"MTrk"),
        begin: at + 8,
        end: at + 8 + size,
    })
}

/// So many tracks in the chunks from this place on.
pub(crate) fn read_tracks(
    alloc: Global,
    count: u16,
    bytes: &[u8],
    at: usize,
) -> Result<Vec<Track>, SmfFault>
    requires { at ≤ length bytes.now }
    ensures { GivesFile (seen_file (λ v. v.items) result) (tracks (length bytes.now) count bytes.now at) }
{
    let mut tracks = Vec::new(alloc);
    let mut left = count;
    let mut place = at;
    'chunks: while left > 0 {
        let chunk = read_chunk(bytes, place)?;
        place = chunk.end;
        if chunk.is_track {
            tracks.push(read_track(alloc, bytes.split_at(chunk.end).0, chunk.begin)?)?;
            left -= 1;
        }
    }
    Ok(tracks)
}
