ghost use Rattle.rhythm_base.specs.Readable.{IsReadable};
ghost use Rattle.rhythm_gen.specs.MidiFile.{generated};
ghost use Rattle.std.specs.Prelude.{◌≡◌, IfOk};

use grammar_file::read_grammar;
use rhythm_base::Grammar;
use rhythm_gen::{PieceBars, generate};
use sample_grammars::USUAL;
use std::alloc::{AllocError, Global};
use std::io::{self, ErrorKind};

/// The number that the piece is made from.
const NUMBER: u32 = 7;

/// The grammar of the benchmark.
pub fn grammar_of(alloc: Global) -> io::Result<Grammar>
    ensures { IfOk result IsReadable }
{
    match read_grammar(alloc, USUAL) {
        Ok(grammar) => Ok(grammar),
        Err(_) => Err(io::Error::from(ErrorKind::InvalidData)),
    }
}

/// The MIDI file of a piece of so many bars.
pub fn midi_of(alloc: Global, bars: PieceBars) -> Result<Vec<u8>, AllocError>
    ensures { IfOk result (λ v. v.items ≡ generated NUMBER bars) }
{
    generate(alloc, NUMBER, bars.count())
}
