use crate::files::{EARLY_NOTE, FOUR_QUARTERS, MOST_BARS, TWO_VOICES, WHOLE_NOTE};
use crate::given::{Failing, Given, NONE_FAILS, Port, end_of};
use crate::grammars::{QUARTERS, QUARTERS_OF_RESTS, USUAL, WHOLE};
use rhythm_ports::Gate;
use std::sync::atomic::{AtomicU64, Ordering};
use std::test::Fail;

/// Counts the cells that are passed to be built.
#[derive(Drop)]
struct CountingGate {
    passed: AtomicU64,
}

impl Gate for CountingGate {
    fn pass(&self, _index: u64) {
        self.passed.fetch_add(1, Ordering::Relaxed);
    }
}

/// What is given, the call that fails, the status, how many cells are built, those of the piece and those that edits
/// reach, how many of them pass the gate: all but those that the search for barlines passes over, and how many products
/// of tables are made: for the bars of a voice one less than there are, and for a table that comes in among them one a
/// level at which it has a neighbour, there and back where an edit is tried.
struct Building {
    shows: &'static str,
    given: Given<'static>,
    failing: Failing,
    status: u8,
    builds: u64,
    passes: u64,
    products: u64,
}

/// Bars are added, a note is drawn over three of them, and a barline is moved.
const NOTE_MADE_LONGER: &[u8] = b"addbar\naddbar\ndrop 0 60 0\nadd 0 60 0 5760\nbarline 1 2000\n";

/// Bars are added, and a barline is moved past another one.
const BARLINE_TOO_LATE: &[u8] = b"addbar\naddbar\nbarline 1 6000\naddbar\n";

const BUILDINGS: &[Building] = &[
    Building {
        shows: "each cell of two voices is built once",
        given: Given {
            words: &["lily", "a.mid", "a.grammar"],
            files: &[("a.mid", TWO_VOICES), ("a.grammar", USUAL)],
            script: b"",
        },
        failing: NONE_FAILS,
        status: 0,
        builds: 4,
        passes: 4,
        products: 2,
    },
    Building {
        shows: "each cell of two voices is built once for a page",
        given: Given {
            words: &["page", "a.mid", "a.grammar"],
            files: &[("a.mid", TWO_VOICES), ("a.grammar", USUAL)],
            script: b"",
        },
        failing: NONE_FAILS,
        status: 0,
        builds: 4,
        passes: 4,
        products: 2,
    },
    Building {
        shows: "and for MusicXML",
        given: Given {
            words: &["musicxml", "a.mid", "a.grammar"],
            files: &[("a.mid", TWO_VOICES), ("a.grammar", USUAL)],
            script: b"",
        },
        failing: NONE_FAILS,
        status: 0,
        builds: 4,
        passes: 4,
        products: 2,
    },
    Building {
        shows: "none for the notes of a file",
        given: Given {
            words: &["notes", "a.mid"],
            files: &[("a.mid", TWO_VOICES)],
            script: b"",
        },
        failing: NONE_FAILS,
        status: 0,
        builds: 0,
        passes: 0,
        products: 0,
    },
    Building {
        shows: "as many bars as there may be, by many workers",
        given: Given {
            words: &["transcribe", "--workers", "16", "a.mid", "a.grammar"],
            files: &[("a.mid", MOST_BARS), ("a.grammar", WHOLE)],
            script: b"",
        },
        failing: NONE_FAILS,
        status: 0,
        builds: 4096,
        passes: 4096,
        products: 4095,
    },
    Building {
        shows: "a cell without a derivation is built nevertheless",
        given: Given {
            words: &["render", "a.mid", "a.grammar"],
            files: &[("a.mid", FOUR_QUARTERS), ("a.grammar", QUARTERS_OF_RESTS)],
            script: b"",
        },
        failing: NONE_FAILS,
        status: 3,
        builds: 1,
        passes: 1,
        products: 0,
    },
    Building {
        shows: "a note joins a chord, and no cell is built for it",
        given: Given {
            words: &["edit", "a.mid", "a.grammar"],
            files: &[("a.mid", FOUR_QUARTERS), ("a.grammar", USUAL)],
            script: b"add 0 64 10 480\nscore\n",
        },
        failing: NONE_FAILS,
        status: 0,
        builds: 1,
        passes: 1,
        products: 0,
    },
    Building {
        shows: "bars are added, and a note over three of them; a barline is refused, and another one moved",
        given: Given {
            words: &["edit", "--workers", "3", "a.mid", "a.grammar"],
            files: &[("a.mid", WHOLE_NOTE), ("a.grammar", USUAL)],
            script: b"addbar\naddbar\ndrop 0 60 0\nadd 0 60 0 5760\nbarline 1 3840\nbarline 1 2000\n",
        },
        failing: NONE_FAILS,
        status: 0,
        builds: 9,
        passes: 9,
        products: 13,
    },
    Building {
        shows: "a pin that leaves no derivation, one that fits, and none; rhythms of a bar, for which none is built",
        given: Given {
            words: &["edit", "a.mid", "a.grammar"],
            files: &[("a.mid", FOUR_QUARTERS), ("a.grammar", USUAL)],
            script: b"pin 0 0 2(. .)\nalt 0 0 2\npin 0 0 2(2(. .) 2(. 2(. .)))\nalt 0 0 2\nunpin 0 0\n",
        },
        failing: NONE_FAILS,
        status: 0,
        builds: 4,
        passes: 4,
        products: 0,
    },
    Building {
        shows: "edits are taken back and made again, and none is built for that",
        given: Given {
            words: &["studio", "a.mid", "a.grammar"],
            files: &[("a.mid", WHOLE_NOTE), ("a.grammar", USUAL)],
            script: b"addbar\naddbar\ndrop 0 60 0\nadd 0 60 0 5760\nbarline 1 2000\nundo\nundo\nundo\nredo\nredo\nredo\n",
        },
        failing: NONE_FAILS,
        status: 0,
        builds: 9,
        passes: 9,
        products: 35,
    },
    Building {
        shows: "a pin that comes back with its bar is taken away by an edit",
        given: Given {
            words: &["studio", "a.mid", "a.grammar"],
            files: &[("a.mid", FOUR_QUARTERS), ("a.grammar", USUAL)],
            script: b"addbar\npin 0 1 .\ndropbar\nundo\nunpin 0 1\n",
        },
        failing: NONE_FAILS,
        status: 0,
        builds: 4,
        passes: 4,
        products: 4,
    },
    Building {
        shows: "the edits of a script file come first",
        given: Given {
            words: &["transcribe", "a.mid", "a.grammar", "--script", "a.script"],
            files: &[
                ("a.mid", WHOLE_NOTE),
                ("a.grammar", USUAL),
                ("a.script", NOTE_MADE_LONGER),
            ],
            script: b"",
        },
        failing: NONE_FAILS,
        status: 0,
        builds: 9,
        passes: 9,
        products: 13,
    },
    Building {
        shows: "up to a line of it that is refused",
        given: Given {
            words: &["page", "a.mid", "a.grammar", "--script", "a.script"],
            files: &[
                ("a.mid", WHOLE_NOTE),
                ("a.grammar", USUAL),
                ("a.script", BARLINE_TOO_LATE),
            ],
            script: b"",
        },
        failing: NONE_FAILS,
        status: 2,
        builds: 3,
        passes: 3,
        products: 2,
    },
    Building {
        shows: "those that each tick reaches, and once more those that the best one does",
        given: Given {
            words: &["fit", "a.mid", "a.grammar", "1", "1880", "1920", "20"],
            files: &[("a.mid", EARLY_NOTE), ("a.grammar", USUAL)],
            script: b"",
        },
        failing: NONE_FAILS,
        status: 0,
        builds: 8,
        passes: 8,
        products: 13,
    },
    Building {
        shows: "ticks at which no derivation fits",
        given: Given {
            words: &["fit", "a.mid", "a.grammar", "1", "2400", "2880", "240"],
            files: &[("a.mid", FOUR_QUARTERS), ("a.grammar", QUARTERS)],
            script: b"",
        },
        failing: NONE_FAILS,
        status: 9,
        builds: 4,
        passes: 4,
        products: 0,
    },
    Building {
        shows: "too many ticks, for which no file is read",
        given: Given {
            words: &["fit", "a.mid", "a.grammar", "1", "0", "256", "1"],
            files: &[("a.mid", EARLY_NOTE), ("a.grammar", USUAL)],
            script: b"",
        },
        failing: NONE_FAILS,
        status: 4,
        builds: 0,
        passes: 0,
        products: 0,
    },
    Building {
        shows: "those of the search for barlines, and those that the lines of its script reach",
        given: Given {
            words: &["follow", "a.mid", "a.grammar"],
            files: &[("a.mid", EARLY_NOTE), ("a.grammar", WHOLE)],
            script: b"",
        },
        failing: NONE_FAILS,
        status: 0,
        builds: 335,
        passes: 100,
        products: 19,
    },
    Building {
        shows: "those of each file that weights are learned from",
        given: Given {
            words: &["learn", "17", "a.grammar", "1.mid", "2.mid", "1.mid"],
            files: &[
                ("a.grammar", USUAL),
                ("1.mid", EARLY_NOTE),
                ("2.mid", TWO_VOICES),
            ],
            script: b"",
        },
        failing: NONE_FAILS,
        status: 0,
        builds: 8,
        passes: 8,
        products: 4,
    },
    Building {
        shows: "those of the files before one without a derivation, and its own",
        given: Given {
            words: &["learn", "17", "a.grammar", "1.mid", "2.mid", "1.mid"],
            files: &[("a.grammar", QUARTERS_OF_RESTS), ("1.mid", FOUR_QUARTERS)],
            script: b"",
        },
        failing: NONE_FAILS,
        status: 3,
        builds: 1,
        passes: 1,
        products: 0,
    },
    Building {
        shows: "a drill without a derivation builds those of its piece",
        given: Given {
            words: &["drill", "7", "a.grammar", "--workers", "2"],
            files: &[("a.grammar", QUARTERS)],
            script: b"",
        },
        failing: NONE_FAILS,
        status: 3,
        builds: 1000,
        passes: 1000,
        products: 998,
    },
    Building {
        shows: "a drill builds those of its piece and those that its edits reach",
        given: Given {
            words: &["drill", "7", "a.grammar"],
            files: &[("a.grammar", USUAL)],
            script: b"",
        },
        failing: NONE_FAILS,
        status: 0,
        builds: 1070,
        passes: 1070,
        products: 1628,
    },
    Building {
        shows: "no edit is made after a reply that failed",
        given: Given {
            words: &["edit", "a.mid", "a.grammar"],
            files: &[("a.mid", FOUR_QUARTERS), ("a.grammar", USUAL)],
            script: b"addbar\nscore\naddbar\n",
        },
        failing: Failing {
            port: Port::Out,
            call: 1,
        },
        status: 6,
        builds: 2,
        passes: 2,
        products: 1,
    },
];

#[test]
fn so_many_cells_are_built_and_multiplied(rt: HostRuntime) -> Result<(), Fail> {
    for building in BUILDINGS {
        let gate = CountingGate {
            passed: AtomicU64::new(0),
        };
        let end = end_of(
            &rt,
            rt.alloc(),
            4096,
            &building.given,
            building.failing,
            &gate,
        )?;
        let passed = gate.passed.load(Ordering::Relaxed);
        assert_eq!(rt;
            (end.status, end.builds, passed, end.products),
            (
                building.status,
                building.builds,
                building.passes,
                building.products
            ),
            "{}",
            building.shows
        );
    }
    Ok(())
}
