ghost use Rattle.rhythm_ports.specs.Calls.{FailsNext, calls_at_start};
ghost use Rattle.rhythm_ports.specs.Counts.{next_count};
ghost use Rattle.std.specs.Prelude.{◌≡◌, ◌↔◌, IsTrue};

use crate::failed::Failed;
use crate::piece_size::PieceSize;
use std::marker::Model;

/// The calls of an object in memory, numbered from 0: how many bytes one moves at most, and which
/// of them fail.
#[derive(Debug, Drop)]
pub(crate) struct Calls {
    most: PieceSize,
    failing: Vec<u64>,
    next: u64,
    faults: u64,
}

impl Model for Calls {
    ghost use Rattle.rhythm_ports.specs.Calls.{Calls};

    ghost Value = { Calls };

    ghost view = { λ c. record {
      most = c.most;
      failing = c.failing.items;
      next = c.next;
      faults = c.faults;
    } };
}

impl Calls {
    pub(crate) fn new(most: PieceSize, failing: Vec<u64>) -> Calls
        ensures { result ≡ calls_at_start most failing.items }
    {
        Calls {
            most,
            failing,
            next: 0,
            faults: 0,
        }
    }

    /// The most bytes that a call moves.
    pub(crate) fn most(&self) -> PieceSize
        ensures { result ≡ self.now.most }
    {
        self.most
    }

    /// Counts a call, and says whether it is one that fails.
    pub(crate) fn begin_failing(&mut self) -> bool
        ensures fails { IsTrue result ↔ FailsNext self.old }
        ensures counted { self.new ≡ record self.old { next = next_count self.old.next } }
    {
        let call = self.next;
        self.next = call.saturating_add(1);
        self.failing.contains(&call)
    }

    /// Counts a failure.
    pub(crate) fn fail(&mut self) -> Failed
        ensures { self.new ≡ record self.old { faults = next_count self.old.faults } }
    {
        self.faults = self.faults.saturating_add(1);
        Failed
    }
}
