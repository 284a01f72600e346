ghost use Rattle.rhythm_ports.specs.Calls.{FailsNext, calls_after, calls_at_start, moved_count};
ghost use Rattle.rhythm_ports.specs.Causes.{HasCause};
ghost use Rattle.std.specs.Io.{ReadsAtMost};
ghost use Rattle.std.specs.Io.KnownBytes.{ReadConsumes};
ghost use Rattle.std.specs.Prelude.{◌≡◌, ◌↔◌, IfOk, IsErr, Some, is_err, max};

use crate::calls::Calls;
use crate::failed::Failed;
use crate::piece_size::PieceSize;
use crate::source::Source;
use crate::unread::Unread;
use std::marker::Model;

/// Bytes in memory to be read, a piece at a time. The calls that were named fail.
#[derive(Debug, Drop)]
pub struct MemSource {
    unread: Unread,
    calls: Calls,
}

impl Model for MemSource {
    ghost use Rattle.rhythm_ports.specs.Memory.{MemSourceState};

    ghost Value = { MemSourceState };

    ghost view = { λ s. record { rest = s.unread; calls = s.calls } };
}

impl MemSource {
    /// A source of the bytes. A call moves at most `most` of them, and the calls whose numbers,
    /// from 0, are in `failing` fail.
    /// Where `most` is 0 it moves one.
    pub fn new(bytes: Vec<u8>, most: usize, failing: Vec<u64>) -> MemSource
        ensures rest { result.rest ≡ bytes.items }
        ensures calls { result.calls ≡ calls_at_start (max most 1) failing.items }
    {
        MemSource {
            unread: Unread::new(bytes),
            calls: Calls::new(PieceSize::of(most), failing),
        }
    }
}

impl Source for MemSource {
    ghost rest = { λ s. Some s.rest };

    ghost faults = { λ s. s.calls.faults };

    fn read(&mut self, buf: &mut [u8]) -> Result<usize, Failed>
        // As of every source.
        ensures bound { ReadsAtMost result buf.new }
        ensures bytes { ReadConsumes (Some self.old.rest) (Some self.new.rest) result buf.new }
        ensures cause { HasCause self.old.calls.faults self.new.calls.faults result }

        // It fails exactly in the calls that were named, and moves as many bytes as it may.
        ensures fails { IsErr result ↔ FailsNext self.old.calls }
        ensures calls { self.new.calls ≡ calls_after self.old.calls (is_err result) }
        ensures count { IfOk result
            (λ count. count ≡ moved_count self.old.calls.most buf.new self.old.rest) }
    {
        if self.calls.begin_failing() {
            return Err(self.calls.fail());
        }
        Ok(self.unread.read(buf, self.calls.most()))
    }
}
