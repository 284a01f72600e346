ghost use Rattle.grammar_file.specs.ReadBack.{IsReadBack, SaysGrammar};
ghost use Rattle.grammar_file.specs.Sayable.{IsSayable};
ghost use Rattle.rhythm_base.specs.Grammar.{Grammar};
ghost use Rattle.rhythm_base.specs.Readable.{IsReadable};
ghost use Rattle.std.specs.Prelude.{List, ℕ};

/// The text that a grammar is printed with says that grammar and no other, and has no fault: so for each readable grammar
/// whose names are spelled as names, and so for each grammar that some text says.
pub fn printed_grammars_are_read_back()
    ensures sayable { (g : Grammar) → IsSayable g → IsReadBack g }
    ensures said { (text : List ℕ) (g : Grammar) → SaysGrammar text g → IsReadBack g }
{}

/// A grammar that some text says is readable: so what holds by each readable grammar holds by that of each file.
pub fn said_grammars_are_readable()
    ensures { (text : List ℕ) (g : Grammar) → SaysGrammar text g → IsReadable g }
{}
