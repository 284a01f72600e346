ghost use Rattle.rhythm_ports.specs.Calls.{moved_count};
ghost use Rattle.rhythm_ports.specs.Causes.{HasCause};
ghost use Rattle.std.specs.Io.{ReadsAtMost};
ghost use Rattle.std.specs.Io.KnownBytes.{ReadConsumes};
ghost use Rattle.std.specs.Prelude.{◌≡◌, Ok, Some, max};

use crate::failed::Failed;
use crate::piece_size::PieceSize;
use crate::source::Source;
use crate::unread::Unread;
use std::marker::Model;

/// Bytes in memory to be read, a piece at a time. No call fails.
#[derive(Debug, Drop)]
pub struct SureSource {
    unread: Unread,
    most: PieceSize,
}

impl Model for SureSource {
    ghost use Rattle.rhythm_ports.specs.Memory.{SureSourceState};

    ghost Value = { SureSourceState };

    ghost view = { λ s. record { rest = s.unread; most = s.most } };
}

impl SureSource {
    /// A source of the bytes. A call moves at most `most` of them.
    /// Where `most` is 0 it moves one.
    pub fn new(bytes: Vec<u8>, most: usize) -> SureSource
        ensures rest { result.rest ≡ bytes.items }
        ensures most { result.most ≡ max most 1 }
    {
        SureSource {
            unread: Unread::new(bytes),
            most: PieceSize::of(most),
        }
    }
}

impl Source for SureSource {
    ghost rest = { λ s. Some s.rest };

    ghost faults = { λ _. 0 };

    fn read(&mut self, buf: &mut [u8]) -> Result<usize, Failed>
        // As of every source.
        ensures bound { ReadsAtMost result buf.new }
        ensures bytes { ReadConsumes (Some self.old.rest) (Some self.new.rest) result buf.new }
        ensures cause { HasCause 0 0 result }

        // It never fails, and moves as many bytes as it may.
        ensures count { result ≡ Ok (moved_count self.old.most buf.new self.old.rest) }
        ensures most { self.new.most ≡ self.old.most }
    {
        Ok(self.unread.read(buf, self.most))
    }
}
