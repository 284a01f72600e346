ghost use Rattle.rhythm_base.specs.declared.limits.TheConstants.{MOST_NAMES};
ghost use Rattle.grammar_file.specs.Grammar.{AreWithin, grammar_of, grammar_of_lines, placed_by, seen_placed};
ghost use Rattle.grammar_file.specs.Outcome.{FailsWithin, GivesAt, seen_grammar};
ghost use Rattle.grammar_file.specs.Sayable.{IsSayable};
ghost use Rattle.grammar_file.specs.Statements.{names_of};
ghost use Rattle.rhythm_base.specs.Readable.{IsReadable};
ghost use Rattle.grammar_file.specs.Content.{IsLineNumber};
ghost use Rattle.grammar_file.specs.Lines.{grammar_lines};
ghost use Rattle.std.specs.Prelude.{ℕ, ◌+◌, ◌≡◌, ◌≤◌, IfErr, IfOk, length};

use crate::draft::{Draft, Spoken, read_lines};
use crate::fault::{GrammarFault, on_line};
use crate::header::{Header, read_header};
use crate::line::Lines;
use crate::names::Names;
use crate::symbols::place;
use rhythm_base::{Grammar, Rule, Start};
use std::alloc::Global;

/// Starts and rules, with symbols for names.
#[derive(Drop)]
struct Placed {
    starts: Vec<Start>,
    rules: Vec<Rule>,
}

/// The starts and the rules of the lines, with symbols for names.
fn place_all(alloc: Global, names: &Names, lines: &[Spoken]) -> Result<Placed, GrammarFault>
    requires kept { names.now ≡ names_of lines.now }
    requires few { length names.now ≤ MOST_NAMES }
    ensures at { (end : ℕ) → AreWithin end lines.now → FailsWithin end result }
    ensures value { GivesAt (seen_grammar seen_placed result) (placed_by (names_of lines.now) lines.now) }
{
    let mut starts = Vec::new(alloc);
    let mut rules = Vec::new(alloc);
    for line in lines {
        on_line(
            line.line,
            place(alloc, names, line, &mut starts, &mut rules),
        )?;
    }
    Ok(Placed { starts, rules })
}

/// The grammar of a header and the lines after it.
fn grammar(alloc: Global, header: Header, draft: &Draft) -> Result<Grammar, GrammarFault>
    requires kept { draft.now.names ≡ names_of draft.now.spoken.items }
    requires few { length draft.now.names ≤ MOST_NAMES }
    ensures value { GivesAt result (grammar_of_lines header draft.now.spoken.items) }
    ensures at { (end : ℕ) → 1 ≤ end → AreWithin end draft.now.spoken.items → FailsWithin end result }
{
    let placed = place_all(alloc, &draft.names, &draft.spoken)?;
    let last = draft.spoken.last().map_or(1, |spoken| spoken.line);
    let names = on_line(last, draft.names.owned(alloc))?;
    Ok(Grammar {
        version: header.version,
        resolution: header.resolution,
        window: header.window,
        early: header.early,
        late: header.late,
        names,
        starts: placed.starts,
        rules: placed.rules,
    })
}

/// The grammar that a file says, or its first fault; but faults of unknown names come after all others. Lines are read one
/// after another, and memory is taken for the words of one line at a time, for what the lines say, and for the grammar.
pub fn read_grammar(alloc: Global, text: &[u8]) -> Result<Grammar, GrammarFault>
    // so that the number of a line fits its type
    requires { length text.now ≤ 4294967294 }
    ensures value { GivesAt result (grammar_of text.now) }
    // a line of the text, or the one after the last
    ensures line { IfErr result (λ fault. IsLineNumber (length (grammar_lines text.now) + 1) fault.line) }
    ensures sayable { IfOk result IsSayable }

    // What `sayable` implies of every such grammar.
    ensures readable { IfOk result IsReadable }
{
    let mut lines = Lines::of(text);
    let header = read_header(alloc, &mut lines)?;
    let draft = read_lines(alloc, header.version, &mut lines)?;
    grammar(alloc, header, &draft)
}
