ghost use Rattle.rhythm_ports.specs.Causes.{HasCause};
ghost use Rattle.rhythm_ports.specs.Counts.{count_after};
ghost use Rattle.std.specs.Io.{ReadsAtMost};
ghost use Rattle.std.specs.Io.KnownBytes.{ReadConsumes};
ghost use Rattle.std.specs.Prelude.{◌≡◌, None, is_err};

use crate::failed::Failed;
use crate::retry::read_again;
use crate::source::Source;
use std::io::Read;
use std::marker::Model;

/// A reader of the system, such as standard input. It tells no bytes. A call that a signal
/// interrupts is made again, and is no failure.
#[derive(Drop)]
pub struct RealInput<R: Read + Drop> {
    inner: R,
    faults: u64,
}

impl<R: Read + Drop> Model for RealInput<R> {
    ghost use Rattle.rhythm_ports.specs.Real.{RealState};

    ghost Value = { RealState };

    ghost view = { λ s. record { known = R.remaining s.inner; faults = s.faults } };
}

impl<R: Read + Drop> RealInput<R> {
    /// A source of what the reader gives. No call failed yet.
    pub fn new(inner: R) -> RealInput<R>
        ensures known { result.known ≡ R.remaining inner }
        ensures faults { result.faults ≡ 0 }
    {
        RealInput { inner, faults: 0 }
    }
}

impl<R: Read + Drop> Source for RealInput<R> {
    ghost rest = { λ _. None };

    ghost faults = { λ s. s.faults };

    fn read(&mut self, buf: &mut [u8]) -> Result<usize, Failed>
        // As of every source.
        ensures bound { ReadsAtMost result buf.new }
        ensures cause { HasCause self.old.faults self.new.faults result }

        // The reader's bytes are passed on as they come, and each failure is counted.
        ensures known { ReadConsumes self.old.known self.new.known result buf.new }
        ensures faults { self.new.faults ≡ count_after self.old.faults (is_err result) }
    {
        let result = read_again(&mut self.inner, buf);
        if result.is_err() {
            self.faults = self.faults.saturating_add(1);
        }
        result
    }
}

#[cfg(test)]
mod tests {
    use super::*;
    use crate::{ReadEnd, read_all};
    use std::io;
    use std::io::ErrorKind;
    use std::test::Fail;

    /// Gives a byte, is interrupted, gives a byte and fails, and then is at its end.
    #[derive(Drop)]
    struct Fitful {
        calls: u8,
    }

    impl Read for Fitful {
        fn read(&mut self, buf: &mut [u8]) -> io::Result<usize> {
            let call = self.calls;
            self.calls = call.saturating_add(1);
            match call {
                1 => Err(io::Error::from(ErrorKind::Interrupted)),
                3 => Err(io::Error::from(ErrorKind::Other)),
                _ if 3 < call || buf.is_empty() => Ok(0),
                _ => {
                    buf[0] = b'0' + call;
                    Ok(1)
                }
            }
        }
    }

    #[test]
    fn fails_after_short_reads(rt: HostRuntime) -> Result<(), Fail> {
        let mut input = RealInput::new(Fitful { calls: 0 });
        let mut buf = [0u8; 4];
        for want in [Ok(1), Ok(1), Err(Failed), Ok(0)] {
            assert!(rt; input.read(&mut buf) == want);
        }
        assert!(rt; input.faults == 1 && buf == [b'2', 0, 0, 0]);
        let mut input = RealInput::new(Fitful { calls: 0 });
        let end = read_all(rt.alloc(), &mut input, 9).err();
        assert!(rt; end == Some(ReadEnd::Fault));
        Ok(())
    }
}
