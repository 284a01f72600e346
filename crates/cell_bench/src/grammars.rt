ghost use Rattle.rhythm_base.specs.Readable.{IsReadable};
ghost use Rattle.std.specs.Prelude.{◌<◌, IfOk};

use grammar_file::{GrammarWhat, read_grammar};
use rhythm_base::Grammar;
use sample_grammars::USUAL;
use std::alloc::{AllocError, Global};
use std::fs;
use std::io::{self, ErrorKind};

/// The grammars of the benchmark.
#[derive(Clone, Copy)]
pub enum Group {
    /// Halves, quarters and eighths.
    Halves,
    /// Nine levels of cuts in 2, 3 and 5, down to single units of 960.
    Nine,
    /// 64 symbols with cuts in 2, 3 and 5.
    Many,
    /// 64 symbols with cuts in 2, 3 and 5 into symbols that are drawn, so that nearly all occur over nearly all widths.
    Mixed,
    /// Unequal parts besides halves and thirds, and onsets that weigh more where they are early than where they are late.
    Parts,
}

/// A text with the same lines for each of so many symbols. In these lines A stands for the symbol's name, B for the name of
/// the symbol after it, C and D for the names of those after B; after the last symbol comes the first. X stands for the name of
/// a symbol that is drawn anew each time.
#[derive(Clone, Copy)]
struct Repeated {
    header: &'static [u8],
    symbols: u8,
    lines: &'static [u8],
}

const NINE: Repeated = Repeated {
    header: b"\
        rhythm 1\n\
        resolution 960\n\
        window 0\n\
        onset 1\n\
        start 4/4 S0\n\
    ",
    symbols: 9,
    lines: b"\
        A 2 split B B\n\
        A 3 split B B B\n\
        A 5 split B B B B B\n\
        A 4 note\n\
        A 6 short\n\
        A 3 tie\n\
        A 1 rest\n\
        A 9 grace 1\n\
        A 14 grace 2\n\
        A 20 grace 3\n\
    ",
};

const MANY: Repeated = Repeated {
    header: b"\
        rhythm 1\n\
        resolution 960\n\
        window 0\n\
        onset 1\n\
        start 4/4 S0\n\
    ",
    symbols: 64,
    lines: b"\
        A 2 split B B\n\
        A 3 split C C C\n\
        A 5 split D D D D D\n\
        A 4 note\n\
        A 6 short\n\
        A 3 tie\n\
        A 1 rest\n\
        A 9 grace 1\n\
    ",
};

const MIXED: Repeated = Repeated {
    header: b"\
        rhythm 1\n\
        resolution 960\n\
        window 0\n\
        onset 1\n\
        start 4/4 S0\n\
    ",
    symbols: 64,
    lines: b"\
        A 2 split X X\n\
        A 3 split X X X\n\
        A 5 split X X X X X\n\
        A 4 note\n\
        A 6 short\n\
        A 3 tie\n\
        A 1 rest\n\
        A 9 grace 1\n\
    ",
};

const PARTS: Repeated = Repeated {
    header: b"\
        rhythm 2\n\
        resolution 96\n\
        window 0\n\
        onset 2 1\n\
        start 4/4 S0\n\
    ",
    symbols: 7,
    lines: b"\
        A 2 split B B\n\
        A 3 split B B B\n\
        A 4 parts 3 B 1 B\n\
        A 5 parts 1 B 3 B\n\
        A 6 parts 2 C 1 C\n\
        A 7 parts 1 B 2 B 1 B\n\
        A 4 note\n\
        A 6 short\n\
        A 3 tie\n\
        A 1 rest\n\
        A 9 grace 1\n\
        A 14 grace 2\n\
        A 20 grace 3\n\
    ",
};

impl Group {
    /// The group of a name.
    pub fn named(name: &str) -> Option<Group> {
        match name {
            "halves" => Some(Group::Halves),
            "nine" => Some(Group::Nine),
            "many" => Some(Group::Many),
            "mixed" => Some(Group::Mixed),
            "parts" => Some(Group::Parts),
            _ => None,
        }
    }

    pub fn name(self) -> &'static str {
        match self {
            Group::Halves => "halves",
            Group::Nine => "nine",
            Group::Many => "many",
            Group::Mixed => "mixed",
            Group::Parts => "parts",
        }
    }

    /// The text of the grammar.
    fn text(self, alloc: Global) -> Result<Vec<u8>, AllocError> {
        match self {
            Group::Halves => Vec::from_slice(alloc, USUAL),
            Group::Nine => text_of(alloc, NINE),
            Group::Many => text_of(alloc, MANY),
            Group::Mixed => text_of(alloc, MIXED),
            Group::Parts => text_of(alloc, PARTS),
        }
    }

    /// The grammar that the text says.
    pub fn grammar(self, alloc: Global) -> io::Result<Grammar>
        ensures { IfOk result IsReadable }
    {
        let text = self.text(alloc)?;
        grammar_in(alloc, &text)
    }
}

/// The grammar that a text says.
fn grammar_in(alloc: Global, text: &[u8]) -> io::Result<Grammar>
    ensures { IfOk result IsReadable }
{
    if text.len() > 1_000_000 {
        return Err(io::Error::from(ErrorKind::InvalidData));
    }
    match read_grammar(alloc, text) {
        Ok(grammar) => Ok(grammar),
        Err(fault) => Err(io::Error::from(kind_of(fault.what))),
    }
}

/// The grammar of the group of that name, or else of the file at that path.
pub fn grammar_named(rt: &HostRuntime, name: &str) -> io::Result<Grammar>
    ensures { IfOk result IsReadable }
{
    let alloc = rt.alloc();
    match Group::named(name) {
        Some(group) => group.grammar(alloc),
        None => grammar_in(alloc, &fs::read(rt, name)?),
    }
}

fn kind_of(what: GrammarWhat) -> ErrorKind {
    match what {
        GrammarWhat::Memory => ErrorKind::OutOfMemory,
        _ => ErrorKind::InvalidData,
    }
}

fn text_of(alloc: Global, repeated: Repeated) -> Result<Vec<u8>, AllocError> {
    let mut text = Vec::from_slice(alloc, repeated.header)?;
    let mut draw = 1;
    for symbol in 0..repeated.symbols {
        push_lines(alloc, &mut text, symbol, repeated, &mut draw)?;
    }
    Ok(text)
}

/// Appends the lines of one symbol.
fn push_lines(
    alloc: Global,
    text: &mut Vec<u8>,
    symbol: u8,
    repeated: Repeated,
    draw: &mut u32,
) -> Result<(), AllocError>
    requires { symbol < repeated.symbols }
{
    for byte in repeated.lines {
        match *byte {
            b'A'..=b'D' => {
                let after = u32::from(symbol) + u32::from(*byte - b'A');
                push_name(alloc, text, after % u32::from(repeated.symbols))?;
            }
            b'X' => push_name(alloc, text, drawn(draw) % u32::from(repeated.symbols))?,
            byte => text.push(byte)?,
        }
    }
    Ok(())
}

/// The next number that is drawn, below 65,536.
fn drawn(draw: &mut u32) -> u32 {
    *draw = draw.wrapping_mul(1_664_525).wrapping_add(1_013_904_223);
    *draw >> 16
}

/// Appends the name of the symbol of a number.
fn push_name(alloc: Global, text: &mut Vec<u8>, number: u32) -> Result<(), AllocError> {
    text.push(b'S')?;
    text.extend_from_slice(number.to_string(alloc)?.as_bytes())
}
