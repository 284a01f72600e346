ghost use Rattle.rhythm_ports.specs.Calls.{moved_count};
ghost use Rattle.std.specs.Prelude.{◌≡◌, ◌<◌, ◌++◌, [], drop, length, take};

use crate::piece_size::PieceSize;
use std::marker::Model;

/// Bytes in memory, of which a first part was read.
#[derive(Debug, Drop)]
pub(crate) struct Unread {
    bytes: Vec<u8>,
    at: usize,
}

impl Model for Unread {
    ghost use Rattle.std.specs.Prelude.{ℕ, List, drop};

    ghost Value = { List ℕ };

    ghost view = { λ u. drop u.at u.bytes.items };
}

impl Unread {
    pub(crate) fn new(bytes: Vec<u8>) -> Unread
        ensures { result ≡ bytes.items }
    {
        Unread { bytes, at: 0 }
    }

    /// Moves a first part to the front of the buffer.
    pub(crate) fn read(&mut self, buf: &mut [u8], most: PieceSize) -> usize
        ensures count { result ≡ moved_count most buf.old self.old }
        ensures moved { self.old ≡ take result buf.new ++ self.new }
        ensures end { result ≡ 0 → 0 < length buf.old → self.new ≡ [] }
    {
        let count = fill(buf, rest_of(self.bytes.as_slice(), self.at), most);
        self.at += count;
        count
    }
}

/// What is left from a place on.
pub(crate) fn rest_of(bytes: &[u8], at: usize) -> &[u8]
    ensures { result.now ≡ drop at bytes.entry.now }
{
    if at <= bytes.len() { &bytes[at..] } else { &[] }
}

/// Moves a first part to the front of the buffer: as many bytes as both have, up to `most`.
pub(crate) fn fill(buf: &mut [u8], rest: &[u8], most: PieceSize) -> usize
    ensures count { result ≡ moved_count most buf.old rest.now }
    ensures front { take result buf.new ≡ take result rest.now }
    ensures end { result ≡ 0 → 0 < length buf.old → rest.now ≡ [] }
{
    let count = rest.len().min(buf.len()).min(most.count());
    buf[..count].copy_from_slice(&rest[..count]);
    count
}
