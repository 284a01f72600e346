ghost use Rattle.rhythm_ports.specs.Causes.{HasCause};
ghost use Rattle.rhythm_ports.specs.Counts.{count_after};
ghost use Rattle.std.specs.Io.{WritesAtMost};
ghost use Rattle.std.specs.Io.KnownBytes.{WriteAppends};
ghost use Rattle.std.specs.Prelude.{◌≡◌, ◌<◌, IfOk, None, is_err, length};

use crate::failed::Failed;
use crate::retry::write_again;
use crate::sink::Sink;
use std::io::Write;
use std::marker::Model;

/// A writer of the system, such as standard output or standard error. It tells no bytes. A call that
/// a signal interrupts is made again, and is no failure.
#[derive(Drop)]
pub struct RealOutput<W: Write + Drop> {
    inner: W,
    faults: u64,
}

impl<W: Write + Drop> Model for RealOutput<W> {
    ghost use Rattle.rhythm_ports.specs.Real.{RealState};

    ghost Value = { RealState };

    ghost view = { λ s. record { known = W.contents s.inner; faults = s.faults } };
}

impl<W: Write + Drop> RealOutput<W> {
    /// A sink whose bytes the writer takes. No call failed yet.
    pub fn new(inner: W) -> RealOutput<W>
        ensures known { result.known ≡ W.contents inner }
        ensures faults { result.faults ≡ 0 }
    {
        RealOutput { inner, faults: 0 }
    }
}

impl<W: Write + Drop> Sink for RealOutput<W> {
    ghost taken = { λ _. None };

    ghost faults = { λ s. s.faults };

    fn write(&mut self, piece: &[u8]) -> Result<usize, Failed>
        // As of every sink.
        ensures bound { WritesAtMost result piece.now }
        ensures some { 0 < length piece.now → IfOk result (λ count. 0 < count) }
        ensures cause { HasCause self.old.faults self.new.faults result }

        // The writer takes the bytes as they come, and each failure is counted. It is one that the
        // writer takes no byte of a piece that is not empty.
        ensures known { WriteAppends self.old.known self.new.known result piece.now }
        ensures faults { self.new.faults ≡ count_after self.old.faults (is_err result) }
    {
        match write_again(&mut self.inner, piece) {
            Ok(count) if 0 < count || piece.is_empty() => Ok(count),
            _ => {
                self.faults = self.faults.saturating_add(1);
                Err(Failed)
            }
        }
    }
}

#[cfg(test)]
mod tests {
    use super::*;
    use crate::{Partial, write_all};
    use std::io;
    use std::io::ErrorKind;
    use std::test::Fail;

    /// Takes two bytes, is interrupted, takes one byte, and then fails or takes no more.
    #[derive(Drop)]
    struct Fitful {
        calls: u8,
        fails: bool,
    }

    impl Write for Fitful {
        fn write(&mut self, buf: &[u8]) -> io::Result<usize> {
            let call = self.calls;
            self.calls = call.saturating_add(1);
            match call {
                0 => Ok(buf.len().min(2)),
                1 => Err(io::Error::from(ErrorKind::Interrupted)),
                2 => Ok(buf.len().min(1)),
                _ if self.fails => Err(io::Error::from(ErrorKind::Other)),
                _ => Ok(0),
            }
        }

        fn flush(&mut self) -> io::Result<()> {
            Ok(())
        }
    }

    #[test]
    fn fails_after_short_writes(rt: HostRuntime) -> Result<(), Fail> {
        for fails in [true, false] {
            let mut output = RealOutput::new(Fitful { calls: 0, fails });
            let result = write_all(&mut output, b"12345");
            assert!(rt; result == Err(Partial { sent: 3 }) && output.faults == 1);
        }
        let mut output = RealOutput::new(Vec::new(rt.alloc()));
        assert!(rt; write_all(&mut output, b"12345") == Ok(()));
        assert!(rt; output.inner.as_slice() == b"12345".as_slice());
        Ok(())
    }
}
