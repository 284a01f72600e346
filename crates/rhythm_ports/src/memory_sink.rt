ghost use Rattle.rhythm_ports.specs.Calls.{FailsNext, calls_after, calls_at_start};
ghost use Rattle.rhythm_ports.specs.Causes.{HasCause};
ghost use Rattle.std.specs.Io.{WritesAtMost};
ghost use Rattle.std.specs.Io.KnownBytes.{WriteAppends};
ghost use Rattle.std.specs.Prelude.{◌≡◌, ◌<◌, ◌⊎◌, [], IfOk, IsErr, OnErr, Some, is_err, length, max, min};

use crate::calls::Calls;
use crate::failed::Failed;
use crate::piece_size::PieceSize;
use crate::sink::Sink;
use std::alloc::Global;
use std::marker::Model;

/// A sink that keeps its bytes in memory. The calls that were named fail, and so does one that finds
/// no memory.
#[derive(Debug, Drop)]
pub struct MemSink {
    bytes: Vec<u8>,
    calls: Calls,
}

impl Model for MemSink {
    ghost use Rattle.rhythm_ports.specs.Memory.{MemSinkState};

    ghost Value = { MemSinkState };

    ghost view = { λ s. record { bytes = s.bytes.items; calls = s.calls } };
}

impl MemSink {
    /// An empty sink. A call takes at most `most` bytes, and the calls whose numbers, from 0, are in
    /// `failing` fail.
    /// Where `most` is 0 it takes one.
    pub fn new(alloc: Global, most: usize, failing: Vec<u64>) -> MemSink
        ensures empty { result.bytes ≡ [] }
        ensures calls { result.calls ≡ calls_at_start (max most 1) failing.items }
    {
        MemSink {
            bytes: Vec::new(alloc),
            calls: Calls::new(PieceSize::of(most), failing),
        }
    }

    /// What was written.
    pub fn bytes(&self) -> &[u8]
        ensures { result.now ≡ self.now.bytes }
    {
        self.bytes.as_slice()
    }
}

impl Sink for MemSink {
    ghost taken = { λ s. Some s.bytes };

    ghost faults = { λ s. s.calls.faults };

    fn write(&mut self, piece: &[u8]) -> Result<usize, Failed>
        // As of every sink.
        ensures bound { WritesAtMost result piece.now }
        ensures some { 0 < length piece.now → IfOk result (λ count. 0 < count) }
        ensures bytes { WriteAppends (Some self.old.bytes) (Some self.new.bytes) result piece.now }
        ensures cause { HasCause self.old.calls.faults self.new.calls.faults result }

        // It fails in the calls that were named, and in no other but for want of memory, of which an
        // empty piece needs none.
        ensures fails { FailsNext self.old.calls → IsErr result }
        ensures memory { OnErr result (FailsNext self.old.calls ⊎ (0 < length piece.now)) }
        ensures calls { self.new.calls ≡ calls_after self.old.calls (is_err result) }

        // It takes as many bytes as it may.
        ensures count { IfOk result (λ count. count ≡ min (length piece.now) self.old.calls.most) }
    {
        let fails = self.calls.begin_failing();
        let count = piece.len().min(self.calls.most().count());
        if fails || self.bytes.extend_from_slice(&piece[..count]).is_err() {
            return Err(self.calls.fail());
        }
        Ok(count)
    }
}
