ghost use Rattle.rhythm_ports.specs.Causes.{HasCause};
ghost use Rattle.std.specs.Io.{WritesAtMost};
ghost use Rattle.std.specs.Prelude.{◌≡◌, ◌<◌, IfOk, None, Ok, length};

use crate::failed::Failed;
use crate::sink::Sink;

/// A sink that takes every piece whole, and keeps and tells nothing. No call fails.
#[derive(Clone, Copy, Debug, Default)]
pub struct SureSink;

impl SureSink {
    /// The sink, of which there is one value.
    pub fn new() -> SureSink {
        SureSink
    }
}

impl Sink for SureSink {
    ghost taken = { λ _. None };

    ghost faults = { λ _. 0 };

    fn write(&mut self, piece: &[u8]) -> Result<usize, Failed>
        // As of every sink.
        ensures bound { WritesAtMost result piece.now }
        ensures some { 0 < length piece.now → IfOk result (λ count. 0 < count) }
        ensures cause { HasCause 0 0 result }

        // It never fails.
        ensures whole { result ≡ Ok (length piece.now) }
    {
        Ok(piece.len())
    }
}
