ghost use Rattle.rhythm_ports.specs.Causes.{HasCause, Rose};
ghost use Rattle.rhythm_ports.specs.Ends.{ReadsBefore};
ghost use Rattle.rhythm_ports.specs.Files.{File, KeepsStrays, Opens};
ghost use Rattle.std.specs.Io.{ReadsAtMost};
ghost use Rattle.std.specs.Io.KnownBytes.{Consumes, IsAtEnd, ReadConsumes};
ghost use Rattle.std.specs.Prelude.{◌≡◌, ◌≤◌, ℕ, List, Option, length, IfErr, IfOk, OnErr, OnOk};

use crate::failed::Failed;
use crate::read_end::{PIECE, ReadEnd, room_for};
use std::alloc::Global;

/// Files by their names, of which one at a time is chosen and read.
pub trait Shelf {
    /// The files, where they are told.
    ghost files: { Self → Option (List File) };

    /// The rest of the chosen file, where it is told: no bytes where none is chosen.
    ghost rest: { Self → Option (List ℕ) };

    /// How often a call failed, up to the last value of a `u64`.
    ghost faults: { Self → ℕ };

    /// How often a name was opened that the files lack, where this is counted. Such an open is a
    /// stray.
    ghost strays: { Self → ℕ };

    /// Chooses the file of the name, to be read from its start.
    fn open(&mut self, name: &str) -> Result<(), Failed>
        // After `Ok` the rest is the file's bytes, or none where there is no such file. After a
        // failure no file is chosen.
        ensures opened { OnOk result (Opens (files self.old) name.now (rest self.new)) }
        ensures closed { OnErr result (IsAtEnd (rest self.new)) }
        ensures files { files self.new ≡ files self.old }

        // The count of faults never falls, and a call fails only where it rose.
        ensures cause { HasCause (faults self.old) (faults self.new) result }

        // The count of strays never falls, and rises only by a name that the files lack.
        ensures strays { strays self.old ≤ strays self.new }
        ensures known { KeepsStrays (files self.old) name.now (strays self.old) (strays self.new) };

    /// Reads of the chosen file as a source reads. Where none is chosen there are no bytes.
    fn read(&mut self, buf: &mut [u8]) -> Result<usize, Failed>
        ensures bound { ReadsAtMost result buf.new }
        ensures bytes { ReadConsumes (rest self.old) (rest self.new) result buf.new }
        ensures files { files self.new ≡ files self.old }
        ensures cause { HasCause (faults self.old) (faults self.new) result }
        ensures strays { strays self.new ≡ strays self.old };

    /// Lets go of the chosen file, so that none is chosen.
    fn close(&mut self)
        ensures closed { IsAtEnd (rest self.new) }
        ensures files { files self.new ≡ files self.old }
        ensures faults { faults self.new ≡ faults self.old }
        ensures strays { strays self.new ≡ strays self.old };
}

/// All bytes of the chosen file's rest, up to `limit` of them.
pub fn read_shelf<F: Shelf>(alloc: Global, shelf: &mut F, limit: u64) -> Result<Vec<u8>, ReadEnd>
    // An `Ok` has the whole rest, within the limit.
    ensures all { IfOk result (λ v. Consumes (F.rest shelf.old) (F.rest shelf.new) v.items) }
    ensures end { OnOk result (IsAtEnd (F.rest shelf.new)) }
    ensures within { IfOk result (λ v. length v.items ≤ limit) }

    // An error has read a first part of the rest, of one byte more than the limit exactly where it
    // is `TooLong`.
    ensures part { IfErr result (λ e. ReadsBefore e limit (F.rest shelf.old) (F.rest shelf.new)) }
    ensures fault { result ≡ Err ReadEnd.Fault → Rose (F.faults shelf.old) (F.faults shelf.new) }
    ensures later { F.faults shelf.old ≤ F.faults shelf.new }
    ensures files { F.files shelf.new ≡ F.files shelf.old }
    ensures strays { F.strays shelf.new ≡ F.strays shelf.old }
{
    let mut bytes = Vec::new(alloc);
    let mut piece = [0u8; PIECE];
    'pieces: while bytes.len() as u64 <= limit {
        let room = room_for(bytes.len(), limit);
        bytes.reserve(room)?;
        match shelf.read(&mut piece[..room]) {
            Ok(0) => return Ok(bytes),
            Ok(count) => bytes.extend_from_slice(&piece[..count]).unwrap(),
            Err(Failed) => return Err(ReadEnd::Fault),
        }
    }
    Err(ReadEnd::TooLong {
        read: bytes.len() as u64,
    })
}

#[cfg(test)]
mod tests;
