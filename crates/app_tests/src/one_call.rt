ghost use Rattle.std.specs.Prelude.{None};

use crate::files::{EARLY_NOTE, FOUR_QUARTERS, TWO_VOICES_SCORE, WHOLE_NOTE};
use crate::given::{Given, shelf_of};
use crate::grammars::USUAL;
use crate::running::{Ports, run_over, words_of};
use crate::talks::{
    BAR_COMES_AND_GOES, CHORD_COMES_AND_GOES, NOTE_JOINS_A_CHORD, NOTE_OVER_THREE_BARS,
    RHYTHMS_OF_A_BAR, script_of,
};
use rhythm_ports::{Failed, MemSink, MemSource, OpenGate, Sink};
use std::alloc::{AllocError, Global};
use std::test::Fail;
use std::thread::Threads;

/// Takes each piece whole, and counts the calls.
#[derive(Drop)]
struct Counting {
    calls: usize,
}

impl Sink for Counting {
    ghost taken = { λ _. None };

    ghost faults = { λ _. 0 };

    fn write(&mut self, piece: &[u8]) -> Result<usize, Failed> {
        self.calls = self.calls.saturating_add(1);
        Ok(piece.len())
    }
}

/// Whether the run ends with status 0, and calls out so often.
fn calls_out<R: Threads + Sync>(
    rt: &R,
    alloc: Global,
    given: &Given<'_>,
    calls: usize,
) -> Result<bool, AllocError> {
    let words = words_of(alloc, given.words)?;
    let script = Vec::from_slice(alloc, given.script)?;
    let mut out = Counting { calls: 0 };
    let ports = Ports {
        shelf: &mut shelf_of(alloc, 4096, Vec::new(alloc), given.files)?,
        script: &mut MemSource::new(script, 4096, Vec::new(alloc)),
        out: &mut out,
        err: &mut MemSink::new(alloc, 4096, Vec::new(alloc)),
    };
    let ran = run_over(rt, alloc, &words, ports, &OpenGate);
    Ok(ran.status == 0 && out.calls == calls)
}

#[test]
fn a_reply_is_written_at_once(rt: HostRuntime) -> Result<(), Fail> {
    let alloc = rt.alloc();
    for (command, midi, talk) in [
        ("edit", FOUR_QUARTERS, NOTE_JOINS_A_CHORD),
        ("edit", WHOLE_NOTE, NOTE_OVER_THREE_BARS),
        ("edit", FOUR_QUARTERS, RHYTHMS_OF_A_BAR),
        ("studio", FOUR_QUARTERS, CHORD_COMES_AND_GOES),
    ] {
        let script = script_of(alloc, talk)?;
        let given = Given {
            words: &[command, "a.mid", "a.grammar"],
            files: &[("a.mid", midi), ("a.grammar", USUAL)],
            script: &script,
        };
        assert!(rt; calls_out(&rt, alloc, &given, talk.len())?);
    }
    Ok(())
}

/// Commands that write a text.
const WRITING: &[&[&str]] = &[
    &["drill", "7", "a.grammar"],
    &["transcribe", "a.mid", "a.grammar"],
    &["transcribe", "a.mid", "a.grammar", "--script", "a.script"],
    &["page", "a.mid", "a.grammar"],
    &["musicxml", "a.mid", "a.grammar"],
    &["lily", "a.mid", "a.grammar"],
    &["render", "a.mid", "a.grammar"],
    &["fit", "a.mid", "a.grammar", "1", "1920", "1920", "1"],
    &["follow", "a.mid", "a.grammar"],
    &["learn", "17", "a.grammar", "a.mid", "a.mid"],
    &["notes", "a.mid"],
    &["events", "a.krn"],
    &["generate", "7", "1"],
    &["--help"],
    &["--version"],
];

#[test]
fn a_text_is_written_at_once(rt: HostRuntime) -> Result<(), Fail> {
    for words in WRITING {
        let command = words.first().copied().unwrap_or("");
        let given = Given {
            words: *words,
            files: &[
                ("a.mid", EARLY_NOTE),
                ("a.grammar", USUAL),
                ("a.script", BAR_COMES_AND_GOES),
                ("a.krn", TWO_VOICES_SCORE),
            ],
            script: b"",
        };
        assert!(rt; calls_out(&rt, rt.alloc(), &given, 1)?, "{command}");
    }
    Ok(())
}
