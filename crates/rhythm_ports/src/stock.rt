ghost use Rattle.rhythm_ports.specs.Calls.{moved_count};
ghost use Rattle.rhythm_ports.specs.Files.{PutsFile, file_of, has_name};
ghost use Rattle.std.specs.Prelude.{
  ◌≡◌,
  ◌≢◌,
  ◌<◌,
  ◌++◌,
  [],
  IsOk,
  None,
  OnErr,
  OnOk,
  Some,
  is_some,
  length,
  position,
  take,
  unwrap_or,
};

use crate::piece_size::PieceSize;
use crate::unread::{fill, rest_of};
use std::alloc::{AllocError, Global};
use std::marker::Model;

/// A file in memory.
#[derive(Debug, Drop)]
struct StoredFile {
    name: String,
    bytes: Vec<u8>,
}

impl Model for StoredFile {
    ghost use Rattle.rhythm_ports.specs.Files.{File};
    ghost use Rattle.std.specs.Prelude.{string_bytes};

    ghost Value = { File };

    ghost view = { λ f. record { name = string_bytes f.name; bytes = f.bytes.items } };
}

/// Files in memory, of which one may be chosen and read.
#[derive(Debug, Drop)]
pub(crate) struct Stock {
    files: Vec<StoredFile>,
    chosen: Option<usize>,
    at: usize,
}

impl Model for Stock {
    ghost use Rattle.rhythm_ports.specs.Stock.{Stock};

    ghost Value = { Stock };

    ghost use Rattle.rhythm_ports.specs.Stock.{rest_at};

    ghost view = { λ s. record {
      files = s.files.items;
      rest = rest_at s.files.items s.chosen s.at;
    } };
}

/// The place of the file of a name.
fn place_of(files: &[StoredFile], name: &str) -> Option<usize>
    ensures { result ≡ position (has_name name.now) files.now }
{
    files.iter().position(|file| file.name.as_str() == name)
}

/// Adds a file, in place of one of that name, which takes no memory.
fn put_in(files: &mut Vec<StoredFile>, name: &str, bytes: Vec<u8>) -> Result<(), AllocError>
    ensures puts { OnOk result (PutsFile files.old.items files.new.items name.now bytes.items) }
    ensures err { OnErr result (files.new.items ≡ files.old.items) }
    ensures in_place { file_of files.old.items name.now ≢ None → IsOk result }
{
    match place_of(files.as_slice(), name) {
        Some(index) => {
            files[index].bytes = bytes;
            Ok(())
        }
        None => {
            let name = String::from_str(*files.allocator(), name)?;
            files.push(StoredFile { name, bytes })?;
            Ok(())
        }
    }
}

impl Stock {
    pub(crate) fn new(alloc: Global) -> Stock
        ensures { result ≡ record { files = []; rest = [] } }
    {
        Stock {
            files: Vec::new(alloc),
            chosen: None,
            at: 0,
        }
    }

    /// Chooses the file of the name, or none where there is no such file, and says which.
    pub(crate) fn open(&mut self, name: &str) -> bool
        ensures found { result ≡ is_some (file_of self.old.files name.now) }
        ensures chosen { self.new
            ≡ record self.old { rest = unwrap_or (file_of self.old.files name.now) [] } }
    {
        self.chosen = place_of(self.files.as_slice(), name);
        self.at = 0;
        self.chosen.is_some()
    }

    /// Adds a file, in place of one of that name. No file is chosen afterwards.
    pub(crate) fn put(&mut self, name: &str, bytes: Vec<u8>) -> Result<(), AllocError>
        ensures puts { OnOk result (PutsFile self.old.files self.new.files name.now bytes.items) }
        ensures rest { OnOk result (self.new.rest ≡ []) }
        ensures err { OnErr result (self.new ≡ self.old) }
        ensures in_place { file_of self.old.files name.now ≢ None → IsOk result }
    {
        put_in(&mut self.files, name, bytes)?;
        self.chosen = None;
        Ok(())
    }

    /// Chooses no file.
    pub(crate) fn close(&mut self)
        ensures { self.new ≡ record self.old { rest = [] } }
    {
        self.chosen = None;
    }

    /// Moves a first part of the chosen file's rest to the front of the buffer.
    pub(crate) fn read(&mut self, buf: &mut [u8], most: PieceSize) -> usize
        ensures count { result ≡ moved_count most buf.old self.old.rest }
        ensures moved { self.old.rest ≡ take result buf.new ++ self.new.rest }
        ensures end { result ≡ 0 → 0 < length buf.old → self.new.rest ≡ [] }
        ensures files { self.new.files ≡ self.old.files }
    {
        let Some(index) = self.chosen else {
            return 0;
        };
        let Some(file) = self.files.get(index) else {
            return 0;
        };
        let count = fill(buf, rest_of(file.bytes.as_slice(), self.at), most);
        self.at += count;
        count
    }
}
