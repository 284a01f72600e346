ghost use Rattle.std.specs.Prelude.{None};

use crate::files::{FOUR_QUARTERS, TWO_VOICES_SCORE};
use crate::given::shelf_of;
use crate::grammars::USUAL;
use crate::running::{Ports, run_over, words_of};
use crate::talks::BAR_COMES_AND_GOES;
use rhythm_base::Words;
use rhythm_ports::{Failed, MemShelf, MemSink, MemSource, OpenGate, Shelf};
use std::alloc::{AllocError, Global};
use std::test::Fail;
use std::thread::Threads;

/// Files that can be read once, as pipes are, with the names that were opened. A second open of a name fails.
#[derive(Drop)]
struct Pipes {
    files: MemShelf,
    opened: Words,
    faults: u64,
}

/// Whether the word is one of the words.
fn has_word(words: &Words, word: &str) -> bool {
    'words: for at in 0..words.count() {
        if words.get(at) == Some(word) {
            return true;
        }
    }
    false
}

impl Shelf for Pipes {
    ghost files = { λ _. None };

    ghost rest = { λ _. None };

    ghost faults = { λ s. s.faults };

    ghost strays = { λ _. 0 };

    fn open(&mut self, name: &str) -> Result<(), Failed> {
        let again = has_word(&self.opened, name);
        let noted = self.opened.push(name);
        if again || noted.is_err() || self.files.open(name).is_err() {
            self.faults = self.faults.saturating_add(1);
            return Err(Failed);
        }
        Ok(())
    }

    fn read(&mut self, buf: &mut [u8]) -> Result<usize, Failed> {
        let result = self.files.read(buf);
        if result.is_err() {
            self.faults = self.faults.saturating_add(1);
        }
        result
    }

    fn close(&mut self) {
        self.files.close();
    }
}

/// Whether the words are these.
fn are_words(words: &Words, wanted: &[&str]) -> bool {
    'wanted: for at in 0..wanted.len() {
        if words.get(at) != Some(wanted[at]) {
            return false;
        }
    }
    words.count() == wanted.len()
}

/// Whether exactly these names are opened, in this order and each once, and the run ends with the status.
fn opens<R: Threads + Sync>(
    rt: &R,
    alloc: Global,
    words: &[&str],
    status: u8,
    names: &[&str],
) -> Result<bool, AllocError> {
    let words = words_of(alloc, words)?;
    let files = [
        ("a.mid", FOUR_QUARTERS),
        ("a.grammar", USUAL),
        ("a.krn", TWO_VOICES_SCORE),
        ("a.script", BAR_COMES_AND_GOES),
    ];
    let mut shelf = Pipes {
        files: shelf_of(alloc, 10, Vec::new(alloc), &files)?,
        opened: Words::new(alloc),
        faults: 0,
    };
    let ports = Ports {
        shelf: &mut shelf,
        script: &mut MemSource::new(
            Vec::from_slice(alloc, b"addbar\nscore\n")?,
            4,
            Vec::new(alloc),
        ),
        out: &mut MemSink::new(alloc, 4096, Vec::new(alloc)),
        err: &mut MemSink::new(alloc, 4096, Vec::new(alloc)),
    };
    let ran = run_over(rt, alloc, &words, ports, &OpenGate);
    Ok(ran.status == status && are_words(&shelf.opened, names))
}

/// Words, the status, and the names that are opened.
const OPENS: &[(&[&str], u8, &[&str])] = &[
    (
        &["transcribe", "a.mid", "a.grammar"],
        0,
        &["a.mid", "a.grammar"],
    ),
    (
        &["edit", "a.mid", "a.grammar", "--workers", "2"],
        0,
        &["a.mid", "a.grammar"],
    ),
    (
        &["studio", "a.mid", "a.grammar"],
        0,
        &["a.mid", "a.grammar"],
    ),
    (&["lily", "a.mid", "a.grammar"], 0, &["a.mid", "a.grammar"]),
    (
        &["render", "a.mid", "a.grammar"],
        0,
        &["a.mid", "a.grammar"],
    ),
    (&["page", "a.mid", "a.grammar"], 0, &["a.mid", "a.grammar"]),
    (
        &["musicxml", "a.mid", "a.grammar"],
        0,
        &["a.mid", "a.grammar"],
    ),
    (
        &["transcribe", "a.mid", "a.grammar", "--script", "a.script"],
        0,
        &["a.mid", "a.grammar", "a.script"],
    ),
    (
        &["studio", "--script", "a.script", "a.mid", "a.grammar"],
        0,
        &["a.mid", "a.grammar", "a.script"],
    ),
    (
        &["follow", "a.mid", "a.grammar", "--script", "a.krn"],
        2,
        &["a.mid", "a.grammar", "a.krn"],
    ),
    (
        &["page", "a.mid", "a.grammar", "--script", "b.script"],
        5,
        &["a.mid", "a.grammar", "b.script"],
    ),
    (
        &["page", "a.mid", "a.krn", "--script", "a.script"],
        2,
        &["a.mid", "a.krn"],
    ),
    (&["notes", "a.mid", "--script", "a.script"], 1, &[]),
    (
        &["fit", "a.mid", "a.grammar", "1", "1920", "1920", "1"],
        0,
        &["a.mid", "a.grammar"],
    ),
    (
        &["follow", "a.mid", "a.grammar"],
        0,
        &["a.mid", "a.grammar"],
    ),
    (
        &["learn", "17", "a.grammar", "a.mid"],
        0,
        &["a.grammar", "a.mid"],
    ),
    (
        &["learn", "17", "a.grammar", "a.mid", "a.krn", "b.mid"],
        2,
        &["a.grammar", "a.mid", "a.krn"],
    ),
    (&["learn", "0", "a.grammar", "a.mid"], 1, &[]),
    (&["notes", "a.mid"], 0, &["a.mid"]),
    (&["events", "a.krn"], 0, &["a.krn"]),
    (&["drill", "7", "a.grammar"], 0, &["a.grammar"]),
    (&["generate", "7", "1"], 0, &[]),
    (&["--help"], 0, &[]),
    (&["--version"], 0, &[]),
    (&["transcribe", "a.mid"], 1, &[]),
    (&["fit", "a.mid", "a.grammar", "1", "20", "10", "1"], 1, &[]),
    (&["fit", "a.mid", "a.grammar", "1", "0", "256", "1"], 4, &[]),
    (
        &["fit", "a.mid", "a.grammar", "2", "1", "1", "1"],
        9,
        &["a.mid", "a.grammar"],
    ),
    (&["transcribe", "a.krn", "a.grammar"], 2, &["a.krn"]),
    (&["transcribe", "a.mid", "a.krn"], 2, &["a.mid", "a.krn"]),
    (&["transcribe", "b.mid", "a.grammar"], 5, &["b.mid"]),
    (&["edit", "a.mid", "b.grammar"], 5, &["a.mid", "b.grammar"]),
    // one pipe for both is at its end when it is opened again
    (&["transcribe", "a.mid", "a.mid"], 5, &["a.mid", "a.mid"]),
];

#[test]
fn each_file_is_opened_once(rt: HostRuntime) -> Result<(), Fail> {
    for (words, status, names) in OPENS {
        let last = words.last().copied().unwrap_or("");
        assert!(rt;
            opens(&rt, rt.alloc(), words, *status, names)?,
            "words that end with {last}"
        );
    }
    Ok(())
}
