ghost use Rattle.smf_bytes.specs.Chunk.{header_bytes, track_chunk_bytes};
ghost use Rattle.std.specs.Prelude.{◌≡◌, ◌++◌, ◌<◌, ◌≤◌, ◌^◌, MatchOption, OnOk, length};

use std::alloc::AllocError;

/// Appends the header of a file of format 1 with so many tracks and so many ticks to a quarter note.
pub fn push_header(bytes: &mut Vec<u8>, tracks: u16, division: u16) -> Result<(), AllocError>
    ensures { OnOk result (bytes.new.items ≡ bytes.old.items ++ header_bytes tracks division) }
{
    bytes.extend_from_slice(b"MThd\0\0\0\x06\0\x01")?;
    bytes.extend_from_slice(&tracks.to_be_bytes())?;
    bytes.extend_from_slice(&division.to_be_bytes())
}

/// The length of a track's content, where it is a number of four bytes.
fn length_of(content: &[u8]) -> Option<u32>
    ensures { MatchOption result (2 ^ 32 ≤ length content.now) (λ n. n ≡ length content.now) }
{
    u32::try_from(content.len()).ok()
}

/// Appends the chunk of a track of this content. One whose length is no number of four bytes is refused as if memory had run
/// out, and no other one.
pub fn push_track(bytes: &mut Vec<u8>, content: &[u8]) -> Result<(), AllocError>
    ensures bytes { OnOk result (bytes.new.items ≡ bytes.old.items ++ track_chunk_bytes content.now) }
    ensures short { OnOk result (length content.now < 2 ^ 32) }
{
    let length = length_of(content).ok_or(AllocError)?;
    bytes.extend_from_slice(b"MTrk")?;
    bytes.extend_from_slice(&length.to_be_bytes())?;
    bytes.extend_from_slice(content)
}
