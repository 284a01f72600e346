ghost use Rattle.rhythm_ports.specs.Calls.{FailsNext, calls_after, calls_at_start, moved_count};
ghost use Rattle.rhythm_ports.specs.Causes.{HasCause};
ghost use Rattle.rhythm_ports.specs.Files.{KeepsStrays, Opens, PutsFile, file_of, strays_after};
ghost use Rattle.std.specs.Io.{ReadsAtMost};
ghost use Rattle.std.specs.Io.KnownBytes.{IsAtEnd, ReadConsumes};
ghost use Rattle.std.specs.Prelude.{
  ◌≡◌,
  ◌≢◌,
  ◌≤◌,
  ◌↔◌,
  ◌⊎◌,
  [],
  IfOk,
  IsErr,
  IsOk,
  None,
  OnErr,
  OnOk,
  Some,
  is_err,
  max,
};

use crate::calls::Calls;
use crate::failed::Failed;
use crate::piece_size::PieceSize;
use crate::shelf::Shelf;
use crate::stock::Stock;
use std::alloc::{AllocError, Global};
use std::marker::Model;

/// Files in memory. The calls of `open` and `read` that were named fail, and so does the open of a
/// name that the files lack.
#[derive(Debug, Drop)]
pub struct MemShelf {
    stock: Stock,
    calls: Calls,
    strays: u64,
}

impl Model for MemShelf {
    ghost use Rattle.rhythm_ports.specs.Memory.{MemShelfState};

    ghost Value = { MemShelfState };

    ghost view = { λ s. record {
      files = s.stock.files;
      rest = s.stock.rest;
      calls = s.calls;
      strays = s.strays;
    } };
}

impl MemShelf {
    /// A shelf with no file. A read moves at most `most` bytes, and the calls whose numbers, from 0,
    /// are in `failing` fail. The calls of `open` and of `read` are numbered together.
    /// Where `most` is 0 it moves one.
    pub fn new(alloc: Global, most: usize, failing: Vec<u64>) -> MemShelf
        ensures files { result.files ≡ [] }
        ensures rest { result.rest ≡ [] }
        ensures calls { result.calls ≡ calls_at_start (max most 1) failing.items }
        ensures strays { result.strays ≡ 0 }
    {
        MemShelf {
            stock: Stock::new(alloc),
            calls: Calls::new(PieceSize::of(most), failing),
            strays: 0,
        }
    }

    /// Adds a file, in place of one of that name, which takes no memory. This call has no number.
    pub fn put(&mut self, name: &str, bytes: Vec<u8>) -> Result<(), AllocError>
        ensures puts { OnOk result (PutsFile self.old.files self.new.files name.now bytes.items) }
        ensures in_place { file_of self.old.files name.now ≢ None → IsOk result }

        // No file is chosen then.
        ensures rest { OnOk result (self.new.rest ≡ []) }
        ensures calls { self.new.calls ≡ self.old.calls }
        ensures strays { self.new.strays ≡ self.old.strays }
        ensures err { OnErr result (self.new ≡ self.old) }
    {
        self.stock.put(name, bytes)
    }
}

impl Shelf for MemShelf {
    ghost files = { λ s. Some s.files };

    ghost rest = { λ s. Some s.rest };

    ghost faults = { λ s. s.calls.faults };

    ghost strays = { λ s. s.strays };

    fn open(&mut self, name: &str) -> Result<(), Failed>
        // As of every shelf.
        ensures opened { OnOk result (Opens (Some self.old.files) name.now (Some self.new.rest)) }
        ensures closed { OnErr result (IsAtEnd (Some self.new.rest)) }
        ensures files { Some self.new.files ≡ Some self.old.files }
        ensures cause { HasCause self.old.calls.faults self.new.calls.faults result }
        ensures strays { self.old.strays ≤ self.new.strays }
        ensures known { KeepsStrays (Some self.old.files) name.now self.old.strays self.new.strays }

        // It fails exactly in the calls that were named and at an absent name, which is a stray.
        ensures fails { IsErr result
            ↔ (FailsNext self.old.calls ⊎ (file_of self.old.files name.now ≡ None)) }
        ensures calls { self.new.calls ≡ calls_after self.old.calls (is_err result) }
        ensures stray { self.new.strays ≡ strays_after self.old.files name.now self.old.strays }
    {
        let fails = self.calls.begin_failing();
        let is_there = self.stock.open(name);
        if !is_there {
            self.strays = self.strays.saturating_add(1);
        }
        if fails || !is_there {
            self.stock.close();
            return Err(self.calls.fail());
        }
        Ok(())
    }

    fn read(&mut self, buf: &mut [u8]) -> Result<usize, Failed>
        // As of every shelf.
        ensures bound { ReadsAtMost result buf.new }
        ensures bytes { ReadConsumes (Some self.old.rest) (Some self.new.rest) result buf.new }
        ensures files { Some self.new.files ≡ Some self.old.files }
        ensures cause { HasCause self.old.calls.faults self.new.calls.faults result }
        ensures strays { self.new.strays ≡ self.old.strays }

        // It fails exactly in the calls that were named, and moves as many bytes as it may.
        ensures fails { IsErr result ↔ FailsNext self.old.calls }
        ensures calls { self.new.calls ≡ calls_after self.old.calls (is_err result) }
        ensures count { IfOk result
            (λ count. count ≡ moved_count self.old.calls.most buf.new self.old.rest) }
    {
        if self.calls.begin_failing() {
            return Err(self.calls.fail());
        }
        Ok(self.stock.read(buf, self.calls.most()))
    }

    fn close(&mut self)
        // As of every shelf.
        ensures closed { IsAtEnd (Some self.new.rest) }
        ensures files { Some self.new.files ≡ Some self.old.files }
        ensures faults { self.new.calls.faults ≡ self.old.calls.faults }
        ensures strays { self.new.strays ≡ self.old.strays }

        // It is no call that could fail, and has no number.
        ensures calls { self.new.calls ≡ self.old.calls }
    {
        self.stock.close();
    }
}
