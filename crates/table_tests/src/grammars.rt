ghost use Rattle.rhythm_base.specs.Readable.{IsReadable};
ghost use Rattle.std.specs.Prelude.{IfOk};

use grammar_file::read_grammar;
use rhythm_base::Grammar;
pub use sample_grammars::{HALVES, USUAL, WHOLE};
use std::alloc::Global;
use std::test::Fail;

/// A bar of two halves or of three thirds.
pub const TIES: &[u8] = b"\
    rhythm 1\n\
    resolution 6\n\
    window 0\n\
    onset 1\n\
    start 4/4 B\n\
    B 0 split H H\n\
    B 0 split T T T\n\
    H 0 note\n\
    H 0 tie\n\
    T 0 note\n\
    T 0 tie\n\
";

/// The same with the thirds first.
pub const TIES_EXCHANGED: &[u8] = b"\
    rhythm 1\n\
    resolution 6\n\
    window 0\n\
    onset 1\n\
    start 4/4 B\n\
    B 0 split T T T\n\
    B 0 split H H\n\
    H 0 note\n\
    H 0 tie\n\
    T 0 note\n\
    T 0 tie\n\
";

/// Four quarters with grace notes.
pub const GRACES: &[u8] = b"\
    rhythm 1\n\
    resolution 4\n\
    window 0\n\
    onset 1\n\
    start 4/4 B\n\
    B 0 split Q Q Q Q\n\
    Q 0 note\n\
    Q 0 rest\n\
    Q 0 tie\n\
    Q 0 short\n\
    Q 5 grace 2\n\
";

/// A dotted half and a quarter. Early onsets weigh three times as much as late ones.
pub const UNEQUAL: &[u8] = b"\
    rhythm 2\n\
    resolution 4\n\
    window 0\n\
    onset 3 1\n\
    start 4/4 B\n\
    B 0 parts 3 H 1 H\n\
    H 0 note\n\
";

/// An interval of two units is below the equal cut and below the unequal one.
pub const TWO_WAYS: &[u8] = b"\
    rhythm 2\n\
    resolution 4\n\
    window 0\n\
    onset 1 1\n\
    start 4/4 B\n\
    B 0 split H H\n\
    B 5 parts 3 D 1 H\n\
    D 0 parts 2 H 1 H\n\
    H 7 split Q Q\n\
    H 1 note\n\
    H 2 tie\n\
    Q 0 note\n\
    Q 0 tie\n\
";

/// Seven levels of halves, and leaves of each kind at the bottom.
pub const HALVES_OF_HALVES: &[u8] = b"\
    rhythm 1\n\
    resolution 128\n\
    window 0\n\
    onset 1\n\
    start 4/4 A\n\
    A 1 split B B\n\
    B 1 split C C\n\
    C 1 split D D\n\
    D 1 split E E\n\
    E 1 split F F\n\
    F 1 split G G\n\
    G 1 split H H\n\
    H 2 note\n\
    H 3 short\n\
    H 2 tie\n\
    H 1 rest\n\
    H 5 grace 1\n\
    H 7 grace 2\n\
    H 9 grace 3\n\
";

/// The grammar of a text.
pub fn read(alloc: Global, text: &[u8]) -> Result<Grammar, Fail>
    ensures { IfOk result IsReadable }
{
    if text.len() > 1_000_000 {
        return Err(Fail::new("a text of fewer bytes"));
    }
    Ok(read_grammar(alloc, text)?)
}
