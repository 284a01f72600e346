ghost use Rattle.rhythm_ports.specs.Causes.{HasCause};
ghost use Rattle.std.specs.Io.{WritesAtMost};
ghost use Rattle.std.specs.Io.KnownBytes.{Appends, WriteAppends};
ghost use Rattle.std.specs.Prelude.{◌<◌, ℕ, List, Option, length, take, IfErr, IfOk, OnOk};

use crate::failed::Failed;

/// Not all bytes were taken, since a call failed.
#[derive(Clone, Copy, Debug, PartialEq, Eq)]
pub struct Partial {
    /// How many were, from the first on.
    pub sent: usize,
}

/// A place to write to.
pub trait Sink {
    /// The bytes written, where they are told.
    ghost taken: { Self → Option (List ℕ) };

    /// How often a call failed, up to the last value of a `u64`.
    ghost faults: { Self → ℕ };

    /// Takes the first bytes of the piece, and answers how many. It takes a byte of a piece that is
    /// not empty, or fails.
    fn write(&mut self, piece: &[u8]) -> Result<usize, Failed>
        ensures bound { WritesAtMost result piece.now }
        ensures some { 0 < length piece.now → IfOk result (λ count. 0 < count) }

        // `Ok` appended so many of the first bytes, and a failure nothing.
        ensures bytes { WriteAppends (taken self.old) (taken self.new) result piece.now }

        // The count of faults never falls, and a call fails only where it rose.
        ensures cause { HasCause (faults self.old) (faults self.new) result };
}

/// Writes all bytes. It takes no memory.
pub fn write_all<K: Sink>(sink: &mut K, bytes: &[u8]) -> Result<(), Partial>
    ensures all { OnOk result (Appends (K.taken sink.old) (K.taken sink.new) bytes.now) }

    // After a failure exactly the first `sent` bytes were taken, and never all.
    ensures part { IfErr result
        (λ e. Appends (K.taken sink.old) (K.taken sink.new) (take e.sent bytes.now)) }
    ensures within { IfErr result (λ e. e.sent < length bytes.now) }
    ensures cause { HasCause (K.faults sink.old) (K.faults sink.new) result }
{
    let mut sent = 0;
    'pieces: while sent < bytes.len() {
        match sink.write(&bytes[sent..]) {
            Ok(count) => sent += count,
            Err(Failed) => return Err(Partial { sent }),
        }
    }
    Ok(())
}

#[cfg(test)]
mod tests {
    use super::*;
    use crate::{MemSink, SureSink};
    use std::test::Fail;

    /// Whether the sink takes exactly so many bytes of the text.
    fn sends(sink: &mut MemSink, text: &[u8], sent: usize) -> bool {
        let result = write_all(sink, text);
        let want = if sent < text.len() {
            Err(Partial { sent })
        } else {
            Ok(())
        };
        result == want && sent <= text.len() && sink.bytes() == &text[..sent]
    }

    #[test]
    fn sends_what_comes_before_the_failing_call(rt: HostRuntime) -> Result<(), Fail> {
        let text = b"0123456789abcdefghijklmnop";
        for (most, failing, sent) in [
            (10, 0, 0),
            (10, 1, 10),
            (10, 2, 20),
            (10, 3, 26),
            (3, 8, 24),
            (2, 99, 26),
            (1, 99, 26),
            (27, 99, 26),
        ] {
            let failing = [failing].to_vec(rt.alloc())?;
            let mut sink = MemSink::new(rt.alloc(), most, failing);
            assert!(rt; sends(&mut sink, text, sent), "{sent} by {most}");
        }
        assert!(rt; write_all(&mut SureSink::new(), text) == Ok(()));
        Ok(())
    }
}
