ghost use Rattle.rhythm_base.specs.Readable.{IsReadable};
ghost use Rattle.std.specs.Prelude.{IfOk};

use grammar_file::{GrammarFault, GrammarWhat, print_grammar, read_grammar};
use rhythm_base::{Body, Grammar, Start};
use std::alloc::Global;
use std::test::Fail;

/// A grammar of version 2: a dotted half note and a quarter note, grace notes and rests.
const DOTTED: &[u8] = b"\
    rhythm 2\n\
    resolution 4\n\
    window 0\n\
    onset 3 1\n\
    start 4/4 B\n\
    B 0 parts 3 H 1 H\n\
    \tH  7 grace 2 \r\n\
    # end\n\
    H 0 rest\n\
";

/// Grammars as they are printed, with all forms of lines among them.
const PRINTED: [&[u8]; 9] = [
    b"rhythm 1\nresolution 4\nwindow 30000\nonset 1\nstart 4/4 B\nB 0 split H H\nH 0 split Q Q\nQ 0 note\n",
    b"rhythm 1\nresolution 8\nwindow 30000\nonset 1\nstart 4/4 B\nB 10 note\nB 10 tie\nB 5 rest\nB 20 split H H\n\
     H 10 note\nH 10 tie\nH 10 rest\nH 20 split Q Q\nQ 10 note\nQ 15 short\nQ 10 tie\nQ 10 rest\nQ 40 split E E\n\
     E 10 note\nE 20 short\nE 10 tie\nE 10 rest\nE 60 grace 1\n",
    b"rhythm 1\nresolution 1\nwindow 0\nonset 1\nstart 5/4 F\nF 0 note\n",
    b"rhythm 1\nresolution 2\nwindow 0\nonset 1\nstart 4/4 B\nB 0 split H H\nH 0 note\nH 0 rest\nH 0 tie\nH 0 short\n",
    b"rhythm 1\nresolution 1\nwindow 0\nonset 1\nstart 4/4 B\nB 0 note\nB 0 rest\nB 0 tie\nB 0 short\n",
    b"rhythm 1\nresolution 6\nwindow 0\nonset 1\nstart 4/4 B\nB 0 split A A\nB 0 split T T T\nA 0 note\nA 0 tie\nT 0 note\nT 0 tie\n",
    b"rhythm 1\nresolution 4\nwindow 0\nonset 1\nstart 4/4 B\nB 0 split Q Q Q Q\nQ 0 note\nQ 0 rest\nQ 0 tie\nQ 0 short\nQ 5 grace 2\n",
    b"rhythm 1\nresolution 1\nwindow 0\nonset 1\nstart 4/4 B\nstart 6/8 B\nB 0 note\n",
    b"rhythm 2\nresolution 4\nwindow 0\nonset 3 1\nstart 4/4 B\nB 0 parts 3 H 1 H\nH 0 note\n",
];

/// The grammar of a file.
pub fn read(alloc: Global, text: &[u8]) -> Result<Grammar, Fail>
    ensures { IfOk result IsReadable }
{
    if text.len() > 4_294_967_294 {
        return Err("a text of fewer bytes".into());
    }
    match read_grammar(alloc, text) {
        Ok(grammar) => Ok(grammar),
        Err(_) => Err("no fault".into()),
    }
}

/// The fault of a text.
fn fault_of(alloc: Global, text: &[u8]) -> Option<GrammarFault> {
    if text.len() > 4_294_967_294 {
        return None;
    }
    read_grammar(alloc, text).err()
}

#[test]
fn reads_each_part(rt: HostRuntime) -> Result<(), Fail> {
    let grammar = read(rt.alloc(), DOTTED)?;
    assert_eq!(rt;
        (grammar.version, grammar.resolution, grammar.window),
        (2, 4, 0)
    );
    assert_eq!(rt; (grammar.early, grammar.late), (3, 1));
    let start = Start {
        num: 4,
        den: 4,
        symbol: 0,
    };
    assert_eq!(rt; grammar.starts.as_slice(), [start].as_slice());
    assert_eq!(rt; (grammar.names.len(), grammar.rules.len()), (2, 3));
    let [first, second, third] = grammar.rules.as_slice() else {
        return Err("three rules".into());
    };
    assert_eq!(rt; first.lhs, 0);
    match &first.body {
        Body::Parts(parts) => assert_eq!(rt; parts.as_slice(), [(3, 1), (1, 1)].as_slice()),
        _ => return Err("parts".into()),
    }
    assert_eq!(rt; second.weight, 7);
    assert!(rt; matches!(second.body, Body::Grace(2)));
    assert!(rt; matches!(third.body, Body::Rest));
    Ok(())
}

#[test]
fn finds_the_first_fault(rt: HostRuntime) -> Result<(), Fail> {
    let text = b"rhythm 1\nresolution 961\nwindow x\n";
    let fault = GrammarFault {
        line: 2,
        what: GrammarWhat::Number { limit: 960 },
    };
    assert_eq!(rt; fault_of(rt.alloc(), text), Some(fault));
    Ok(())
}

/// The text that a grammar file's grammar is printed with.
fn printed(alloc: Global, text: &[u8]) -> Result<Vec<u8>, Fail> {
    Ok(print_grammar(alloc, &read(alloc, text)?)?)
}

#[test]
fn prints_what_it_reads(rt: HostRuntime) -> Result<(), Fail> {
    for text in PRINTED {
        assert_eq!(rt; printed(rt.alloc(), text)?.as_slice(), text);
    }
    let loose = b"#\n rhythm  1\nresolution 04\nwindow 0\nonset 007\nB 00 grace 1\r\nstart 2/4 B";
    let strict = b"rhythm 1\nresolution 4\nwindow 0\nonset 7\nstart 2/4 B\nB 0 grace 1\n";
    assert_eq!(rt; printed(rt.alloc(), loose)?.as_slice(), strict.as_slice());
    Ok(())
}
