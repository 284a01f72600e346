use crate::files::{EIGHT_VOICES, MANY_BARS, SIXTEEN_BARS, TWO_VOICES, WHOLE_NOTE};
use crate::given::{Given, NONE_FAILS, end_of};
use crate::grammars::{USUAL, WHOLE};
use rhythm_ports::Gate;
use std::alloc::{AllocError, Global};
use std::sync::atomic::{AtomicBool, AtomicU64, Ordering};
use std::test::Fail;
use std::thread::Threads;

/// Holds workers until so many are held at one time, each for so many turns at most. Then it holds none.
#[derive(Drop)]
struct Meeting {
    /// So many cells pass before any is held.
    free: u64,
    wanted: u64,
    turns: u32,
    passed: AtomicU64,
    held: AtomicU64,
    met: AtomicBool,
}

impl Meeting {
    fn new(free: u64, wanted: u64, turns: u32) -> Meeting {
        Meeting {
            free,
            wanted,
            turns,
            passed: AtomicU64::new(0),
            held: AtomicU64::new(0),
            met: AtomicBool::new(false),
        }
    }

    /// Whether so many were held at one time.
    fn has_met(&self) -> bool {
        self.met.load(Ordering::SeqCst)
    }
}

impl Gate for Meeting {
    fn pass(&self, _index: u64) {
        if self.passed.fetch_add(1, Ordering::SeqCst) < self.free || self.has_met() {
            return;
        }
        self.held.fetch_add(1, Ordering::SeqCst);
        for _ in 0..self.turns {
            if self.held.load(Ordering::SeqCst) >= self.wanted || self.has_met() {
                self.met.store(true, Ordering::SeqCst);
                return;
            }
        }
        self.held.fetch_sub(1, Ordering::SeqCst);
    }
}

/// The turns for which workers wait for others that come.
const LONG: u32 = 100_000_000;

/// The turns for which they wait where others may not come.
const SHORT: u32 = 5_000_000;

/// The same where they wait at many cells.
const BRIEF: u32 = 100_000;

/// And where they wait at thousands of cells.
const BRIEFEST: u32 = 10_000;

/// What is given, how many cells pass before any worker is held, how many workers are to meet, and for how many turns each waits.
struct Met {
    shows: &'static str,
    words: &'static [&'static str],
    files: &'static [(&'static str, &'static [u8])],
    script: &'static [u8],
    free: u64,
    wanted: u64,
    turns: u32,
}

/// Runs in which as many meet.
const MEETINGS: &[Met] = &[
    Met {
        shows: "two workers for sixteen cells",
        words: &["transcribe", "--workers", "2", "a.mid", "a.grammar"],
        files: &[("a.mid", SIXTEEN_BARS), ("a.grammar", WHOLE)],
        script: b"",
        free: 0,
        wanted: 2,
        turns: LONG,
    },
    Met {
        shows: "sixteen workers, of whom two have eight cells each",
        words: &["transcribe", "--workers", "16", "a.mid", "a.grammar"],
        files: &[("a.mid", SIXTEEN_BARS), ("a.grammar", WHOLE)],
        script: b"",
        free: 0,
        wanted: 2,
        turns: LONG,
    },
    Met {
        shows: "sixteen workers for 128 cells",
        words: &["transcribe", "--workers", "16", "a.mid", "a.grammar"],
        files: &[("a.mid", MANY_BARS), ("a.grammar", WHOLE)],
        script: b"",
        free: 0,
        wanted: 16,
        turns: LONG,
    },
    Met {
        shows: "two workers for the sixteen cells of a page",
        words: &["page", "--workers", "2", "a.mid", "a.grammar"],
        files: &[("a.mid", SIXTEEN_BARS), ("a.grammar", WHOLE)],
        script: b"",
        free: 0,
        wanted: 2,
        turns: LONG,
    },
    Met {
        shows: "and for those of MusicXML",
        words: &["musicxml", "--workers", "2", "a.mid", "a.grammar"],
        files: &[("a.mid", SIXTEEN_BARS), ("a.grammar", WHOLE)],
        script: b"",
        free: 0,
        wanted: 2,
        turns: LONG,
    },
    Met {
        shows: "an edit of a script file, before which 128 cells are built",
        words: &[
            "lily",
            "--workers",
            "3",
            "a.mid",
            "a.grammar",
            "--script",
            "a.script",
        ],
        files: &[
            ("a.mid", MANY_BARS),
            ("a.grammar", WHOLE),
            ("a.script", b"drop 0 60 0\n"),
        ],
        script: b"",
        free: 128,
        wanted: 3,
        turns: LONG,
    },
    Met {
        shows: "an edit that reaches 128 cells, before which as many are built",
        words: &["edit", "--workers", "3", "a.mid", "a.grammar"],
        files: &[("a.mid", MANY_BARS), ("a.grammar", WHOLE)],
        script: b"drop 0 60 0\n",
        free: 128,
        wanted: 3,
        turns: LONG,
    },
    Met {
        shows: "a fit at whose tick sixteen cells are reached, before which as many are built",
        words: &[
            "fit",
            "--workers",
            "2",
            "a.mid",
            "a.grammar",
            "1",
            "1900",
            "1900",
            "1",
        ],
        files: &[("a.mid", EIGHT_VOICES), ("a.grammar", USUAL)],
        script: b"",
        free: 16,
        wanted: 2,
        turns: LONG,
    },
    Met {
        shows: "bars between other barlines, before which sixteen cells are built",
        words: &["follow", "--workers", "3", "a.mid", "a.grammar"],
        files: &[("a.mid", EIGHT_VOICES), ("a.grammar", WHOLE)],
        script: b"",
        free: 16,
        wanted: 3,
        turns: LONG,
    },
    Met {
        shows: "the second of the files that weights are learned from",
        words: &[
            "learn",
            "17",
            "a.grammar",
            "1.mid",
            "2.mid",
            "--workers",
            "2",
        ],
        files: &[
            ("a.grammar", USUAL),
            ("1.mid", WHOLE_NOTE),
            ("2.mid", SIXTEEN_BARS),
        ],
        script: b"",
        free: 1,
        wanted: 2,
        turns: LONG,
    },
    Met {
        shows: "the piece of a drill",
        words: &["drill", "7", "a.grammar", "--workers", "2"],
        files: &[("a.grammar", USUAL)],
        script: b"",
        free: 0,
        wanted: 2,
        turns: LONG,
    },
];

/// Runs in which there are too few for that.
const PARTINGS: &[Met] = &[
    Met {
        shows: "one worker",
        words: &["transcribe", "--workers", "1", "a.mid", "a.grammar"],
        files: &[("a.mid", SIXTEEN_BARS), ("a.grammar", WHOLE)],
        script: b"",
        free: 0,
        wanted: 2,
        turns: BRIEF,
    },
    Met {
        shows: "sixteen cells are too few for a third worker",
        words: &["transcribe", "--workers", "16", "a.mid", "a.grammar"],
        files: &[("a.mid", SIXTEEN_BARS), ("a.grammar", WHOLE)],
        script: b"",
        free: 0,
        wanted: 3,
        turns: BRIEF,
    },
    Met {
        shows: "four cells are too few for a second one",
        words: &["transcribe", "--workers", "2", "a.mid", "a.grammar"],
        files: &[("a.mid", TWO_VOICES), ("a.grammar", USUAL)],
        script: b"",
        free: 0,
        wanted: 2,
        turns: SHORT,
    },
    Met {
        shows: "fifteen workers are fewer than sixteen",
        words: &["transcribe", "--workers", "15", "a.mid", "a.grammar"],
        files: &[("a.mid", MANY_BARS), ("a.grammar", WHOLE)],
        script: b"",
        free: 0,
        wanted: 16,
        turns: BRIEF,
    },
    Met {
        shows: "two workers are too few for an edit",
        words: &["edit", "--workers", "2", "a.mid", "a.grammar"],
        files: &[("a.mid", MANY_BARS), ("a.grammar", WHOLE)],
        script: b"drop 0 60 0\n",
        free: 128,
        wanted: 3,
        turns: BRIEF,
    },
    Met {
        shows: "nor for one of a script file",
        words: &[
            "lily",
            "--workers",
            "2",
            "a.mid",
            "a.grammar",
            "--script",
            "a.script",
        ],
        files: &[
            ("a.mid", MANY_BARS),
            ("a.grammar", WHOLE),
            ("a.script", b"drop 0 60 0\n"),
        ],
        script: b"",
        free: 128,
        wanted: 3,
        turns: BRIEF,
    },
    Met {
        shows: "one worker is too few for a fit",
        words: &[
            "fit",
            "--workers",
            "1",
            "a.mid",
            "a.grammar",
            "1",
            "1900",
            "1900",
            "1",
        ],
        files: &[("a.mid", EIGHT_VOICES), ("a.grammar", USUAL)],
        script: b"",
        free: 16,
        wanted: 2,
        turns: BRIEF,
    },
    Met {
        shows: "two workers are too few for bars between other barlines",
        words: &["follow", "--workers", "2", "a.mid", "a.grammar"],
        files: &[("a.mid", EIGHT_VOICES), ("a.grammar", WHOLE)],
        script: b"",
        free: 16,
        wanted: 3,
        turns: BRIEFEST,
    },
    Met {
        shows: "the edits of a drill, which reach a few cells each",
        words: &["drill", "7", "a.grammar", "--workers", "2"],
        files: &[("a.grammar", USUAL)],
        script: b"",
        free: 1000,
        wanted: 2,
        turns: BRIEF,
    },
];

/// How the run ends, and whether the workers meet in it.
fn outcome<R: Threads + Sync>(rt: &R, alloc: Global, met: &Met) -> Result<(u8, bool), AllocError> {
    let gate = Meeting::new(met.free, met.wanted, met.turns);
    let given = Given {
        words: met.words,
        files: met.files,
        script: met.script,
    };
    let end = end_of(rt, alloc, 4096, &given, NONE_FAILS, &gate)?;
    Ok((end.status, gate.has_met()))
}

/// The number of workers that the words say is that by which the cells are built.
#[test]
fn so_many_workers_draw_as_the_words_say(rt: HostRuntime) -> Result<(), Fail> {
    for met in MEETINGS {
        assert_eq!(rt; outcome(&rt, rt.alloc(), met)?, (0, true), "{}", met.shows);
    }
    Ok(())
}

#[test]
fn no_more_workers_draw(rt: HostRuntime) -> Result<(), Fail> {
    for met in PARTINGS {
        assert_eq!(rt; outcome(&rt, rt.alloc(), met)?, (0, false), "{}", met.shows);
    }
    Ok(())
}
