ghost use Rattle.rhythm_ports.specs.Calls.{moved_count};
ghost use Rattle.rhythm_ports.specs.Causes.{HasCause};
ghost use Rattle.rhythm_ports.specs.Files.{KeepsStrays, Opens, PutsFile, file_of, strays_after};
ghost use Rattle.std.specs.Io.{ReadsAtMost};
ghost use Rattle.std.specs.Io.KnownBytes.{IsAtEnd, ReadConsumes};
ghost use Rattle.std.specs.Prelude.{
  ◌≡◌,
  ◌≢◌,
  ◌≤◌,
  [],
  IsOk,
  None,
  Ok,
  OnErr,
  OnOk,
  Some,
  max,
};

use crate::failed::Failed;
use crate::piece_size::PieceSize;
use crate::shelf::Shelf;
use crate::stock::Stock;
use std::alloc::{AllocError, Global};
use std::marker::Model;

/// Files in memory. No call of `open` or `read` fails: a name that the files lack opens a file of no
/// bytes.
#[derive(Debug, Drop)]
pub struct SureShelf {
    stock: Stock,
    most: PieceSize,
    strays: u64,
}

impl Model for SureShelf {
    ghost use Rattle.rhythm_ports.specs.Memory.{SureShelfState};

    ghost Value = { SureShelfState };

    ghost view = { λ s. record {
      files = s.stock.files;
      rest = s.stock.rest;
      most = s.most;
      strays = s.strays;
    } };
}

impl SureShelf {
    /// A shelf with no file. A read moves at most `most` bytes.
    /// Where `most` is 0 it moves one.
    pub fn new(alloc: Global, most: usize) -> SureShelf
        ensures files { result.files ≡ [] }
        ensures rest { result.rest ≡ [] }
        ensures most { result.most ≡ max most 1 }
        ensures strays { result.strays ≡ 0 }
    {
        SureShelf {
            stock: Stock::new(alloc),
            most: PieceSize::of(most),
            strays: 0,
        }
    }

    /// Adds a file, in place of one of that name, which takes no memory.
    pub fn put(&mut self, name: &str, bytes: Vec<u8>) -> Result<(), AllocError>
        ensures puts { OnOk result (PutsFile self.old.files self.new.files name.now bytes.items) }
        ensures in_place { file_of self.old.files name.now ≢ None → IsOk result }

        // No file is chosen then.
        ensures rest { OnOk result (self.new.rest ≡ []) }
        ensures most { self.new.most ≡ self.old.most }
        ensures strays { self.new.strays ≡ self.old.strays }
        ensures err { OnErr result (self.new ≡ self.old) }
    {
        self.stock.put(name, bytes)
    }
}

impl Shelf for SureShelf {
    ghost files = { λ s. Some s.files };

    ghost rest = { λ s. Some s.rest };

    ghost faults = { λ _. 0 };

    ghost strays = { λ s. s.strays };

    fn open(&mut self, name: &str) -> Result<(), Failed>
        // As of every shelf.
        ensures opened { OnOk result (Opens (Some self.old.files) name.now (Some self.new.rest)) }
        ensures closed { OnErr result (IsAtEnd (Some self.new.rest)) }
        ensures files { Some self.new.files ≡ Some self.old.files }
        ensures cause { HasCause 0 0 result }
        ensures strays { self.old.strays ≤ self.new.strays }
        ensures known { KeepsStrays (Some self.old.files) name.now self.old.strays self.new.strays }

        // It never fails, and an absent name is a stray.
        ensures sure { IsOk result }
        ensures most { self.new.most ≡ self.old.most }
        ensures stray { self.new.strays ≡ strays_after self.old.files name.now self.old.strays }
    {
        if !self.stock.open(name) {
            self.strays = self.strays.saturating_add(1);
        }
        Ok(())
    }

    fn read(&mut self, buf: &mut [u8]) -> Result<usize, Failed>
        // As of every shelf.
        ensures bound { ReadsAtMost result buf.new }
        ensures bytes { ReadConsumes (Some self.old.rest) (Some self.new.rest) result buf.new }
        ensures files { Some self.new.files ≡ Some self.old.files }
        ensures cause { HasCause 0 0 result }
        ensures strays { self.new.strays ≡ self.old.strays }

        // It never fails, and moves as many bytes as it may.
        ensures count { result ≡ Ok (moved_count self.old.most buf.new self.old.rest) }
        ensures most { self.new.most ≡ self.old.most }
    {
        Ok(self.stock.read(buf, self.most))
    }

    fn close(&mut self)
        // As of every shelf.
        ensures closed { IsAtEnd (Some self.new.rest) }
        ensures files { Some self.new.files ≡ Some self.old.files }
        ensures strays { self.new.strays ≡ self.old.strays }
        ensures most { self.new.most ≡ self.old.most }
    {
        self.stock.close();
    }
}
