ghost use Rattle.edit_script.specs.Sending.{HandsOn, HasRoom, LacksRoom, Sends, Writes, joined};
ghost use Rattle.rhythm_ports.specs.Causes.{HasCause};
ghost use Rattle.std.specs.Prelude.{◌≡◌, [], MatchBool};

use arrayvec::ArrayVec;
use rhythm_ports::{Partial, Sink, write_all};
use std::marker::Model;

/// The most bytes of a reply that wait until the sink is asked to take them.
pub(crate) const MOST_GATHERED: usize = 4_096;

/// The pieces of a reply that the sink is not yet asked to take, and how many bytes of it the sink took.
#[derive(Drop)]
pub(crate) struct Gathered {
    bytes: ArrayVec<u8, MOST_GATHERED>,
    sent: usize,
}

impl Model for Gathered {
    ghost use Rattle.edit_script.specs.Gathered.{Gathered};

    ghost Value = { Gathered };

    ghost view = { λ g. record { bytes = g.bytes.items; sent = g.sent } };
}

/// Lets the sink take bytes, and counts them after those that it took before.
fn send<K: Sink>(sink: &mut K, sent: usize, bytes: &[u8]) -> Result<usize, Partial>
    ensures sent { Sends K.taken sink.old sink.new sent bytes.now result }
    ensures cause { HasCause (K.faults sink.old) (K.faults sink.new) result }
{
    match write_all(sink, bytes) {
        Ok(()) => Ok(sent.saturating_add(bytes.len())),
        Err(partial) => Err(Partial {
            sent: sent.saturating_add(partial.sent),
        }),
    }
}

impl Gathered {
    /// Nothing of a reply was written yet.
    pub(crate) fn new() -> Gathered
        ensures { result ≡ record { bytes = []; sent = 0 } }
    {
        Gathered {
            bytes: ArrayVec::new(),
            sent: 0,
        }
    }

    /// Gathers bytes where there is room for all of them, and says whether there was.
    fn gather(&mut self, bytes: &[u8]) -> bool
        ensures room { MatchBool result (HasRoom self.old bytes.now) (LacksRoom self.old bytes.now) }
        ensures new { MatchBool result (self.new ≡ joined self.old bytes.now) (self.new ≡ self.old) }
    {
        self.bytes.try_extend_from_slice(bytes).is_ok()
    }

    /// Lets the sink take what is gathered.
    pub(crate) fn hand_on<K: Sink>(&mut self, sink: &mut K) -> Result<(), Partial>
        ensures handed { HandsOn K.taken sink.old sink.new self.old self.new result }
        ensures cause { HasCause (K.faults sink.old) (K.faults sink.new) result }
    {
        self.sent = send(sink, self.sent, self.bytes.as_slice())?;
        self.bytes.clear();
        Ok(())
    }

    /// Writes bytes of which too many are to wait beside those before them: what was gathered is handed on.
    fn write_on<K: Sink>(&mut self, sink: &mut K, bytes: &[u8]) -> Result<(), Partial>
        requires { LacksRoom self.old bytes.now }
        ensures written { Writes K.taken sink.old sink.new self.old self.new bytes.now result }
        ensures cause { HasCause (K.faults sink.old) (K.faults sink.new) result }
    {
        self.hand_on(sink)?;
        if self.gather(bytes) {
            return Ok(());
        }
        self.sent = send(sink, self.sent, bytes)?;
        Ok(())
    }

    /// Writes bytes: they wait while there is room for them.
    pub(crate) fn write<K: Sink>(&mut self, sink: &mut K, bytes: &[u8]) -> Result<(), Partial>
        ensures written { Writes K.taken sink.old sink.new self.old self.new bytes.now result }
        ensures cause { HasCause (K.faults sink.old) (K.faults sink.new) result }
    {
        if self.gather(bytes) {
            return Ok(());
        }
        self.write_on(sink, bytes)
    }
}
