ghost use Rattle.rhythm_ports.specs.Causes.{HasCause};
ghost use Rattle.rhythm_ports.specs.Counts.{count_after};
ghost use Rattle.std.specs.Io.{ReadsAtMost};
ghost use Rattle.std.specs.Io.KnownBytes.{ReadConsumes};
ghost use Rattle.std.specs.Prelude.{◌≡◌, [], None, Ok, OnErr, Some, false, is_err, is_ok};

use crate::failed::Failed;
use crate::retry::read_again;
use crate::shelf::Shelf;
use std::fs;
use std::marker::Model;
use std::rt::Files;

/// The files of the system, by their paths. It tells no bytes, and counts no strays. A call that a
/// signal interrupts is made again, and is no failure.
#[derive(Drop)]
pub struct RealShelf<R: Files + Drop> {
    files: R,
    chosen: Option<R::File>,
    faults: u64,
}

impl<R: Files + Drop> Model for RealShelf<R> {
    ghost use Rattle.rhythm_ports.specs.Real.{RealShelfState, chosen_bytes};
    ghost use Rattle.std.specs.Prelude.{is_some};

    ghost Value = { RealShelfState };

    ghost view = { λ s. record {
      is_open = is_some s.chosen;
      known = chosen_bytes R.File.remaining s.chosen;
      faults = s.faults;
    } };
}

impl<R: Files + Drop> RealShelf<R> {
    /// The files that the runtime reaches, which it may borrow: `RealShelf::new(&rt)`.
    pub fn new(files: R) -> RealShelf<R>
        ensures closed { result.is_open ≡ false }
        ensures known { result.known ≡ Some [] }
        ensures faults { result.faults ≡ 0 }
    {
        RealShelf {
            files,
            chosen: None,
            faults: 0,
        }
    }
}

impl<R: Files + Drop> Shelf for RealShelf<R> {
    ghost files = { λ _. None };

    ghost rest = { λ _. None };

    ghost faults = { λ s. s.faults };

    ghost strays = { λ _. 0 };

    fn open(&mut self, name: &str) -> Result<(), Failed>
        // As of every shelf.
        ensures cause { HasCause self.old.faults self.new.faults result }

        // A file is chosen exactly after an `Ok`, and each failure is counted.
        ensures chosen { self.new.is_open ≡ is_ok result }
        ensures closed { OnErr result (self.new.known ≡ Some []) }
        ensures faults { self.new.faults ≡ count_after self.old.faults (is_err result) }
    {
        self.chosen = fs::open(&self.files, name).ok();
        if self.chosen.is_none() {
            self.faults = self.faults.saturating_add(1);
            return Err(Failed);
        }
        Ok(())
    }

    fn read(&mut self, buf: &mut [u8]) -> Result<usize, Failed>
        // As of every shelf.
        ensures bound { ReadsAtMost result buf.new }
        ensures cause { HasCause self.old.faults self.new.faults result }

        // The file's bytes are passed on as they come, and each failure is counted.
        ensures known { ReadConsumes self.old.known self.new.known result buf.new }
        ensures faults { self.new.faults ≡ count_after self.old.faults (is_err result) }

        // Where no file is chosen it reads nothing.
        ensures closed { self.old.is_open ≡ false → result ≡ Ok 0 }
        ensures chosen { self.new.is_open ≡ self.old.is_open }
    {
        let Some(file) = &mut self.chosen else {
            return Ok(0);
        };
        let result = read_again(file, buf);
        if result.is_err() {
            self.faults = self.faults.saturating_add(1);
        }
        result
    }

    fn close(&mut self)
        // As of every shelf.
        ensures faults { self.new.faults ≡ self.old.faults }

        // The system has its file back.
        ensures chosen { self.new.is_open ≡ false }
        ensures known { self.new.known ≡ Some [] }
    {
        self.chosen = None;
    }
}
