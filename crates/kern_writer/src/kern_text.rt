ghost use Rattle.kern_writer.specs.Writing.{EndsRecord, IsNextLine};
ghost use Rattle.std.specs.Prelude.{◌≡◌, ◌≤◌, []};

use crate::fault::ScoreFault;
use rhythm_base::LONGEST_SCORE;
use std::alloc::Global;

/// A text in the making: whole records, and maybe pieces of the next one.
#[derive(Drop)]
pub(crate) struct KernText {
    pub(crate) bytes: Vec<u8>,
    /// How many records are ended.
    pub(crate) lines: u32,
}

/// The number of one more record, with which the text has so many bytes, or that it ends past the longest text.
fn next_line(lines: u32, bytes: usize) -> Result<u32, ScoreFault>
    requires { lines ≤ LONGEST_SCORE }
    ensures { IsNextLine lines bytes result }
{
    let line = lines + 1;
    if bytes as u64 > LONGEST_SCORE {
        Err(ScoreFault::TooLong { line })
    } else {
        Ok(line)
    }
}

impl KernText {
    /// No record yet.
    pub(crate) fn new(alloc: Global) -> KernText
        ensures bytes { result.bytes.items ≡ [] }
        ensures lines { result.lines ≡ 0 }
    {
        KernText {
            bytes: Vec::new(alloc),
            lines: 0,
        }
    }

    /// Ends the record whose pieces were appended.
    pub(crate) fn end_record(&mut self) -> Result<(), ScoreFault>
        requires { self.old.lines ≤ LONGEST_SCORE }
        ensures { EndsRecord self.old result self.new }
    {
        self.bytes.push(b'\n')?;
        self.lines = next_line(self.lines, self.bytes.len())?;
        Ok(())
    }
}
