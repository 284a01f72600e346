use crate::files::{
    EARLY_NOTE, FOUR_QUARTERS, NO_BYTES, TOO_MANY_BARS, TWO_VOICES_SCORE, WHOLE_NOTE,
};
use crate::given::{Ending, Failing, Given, NONE_FAILS, Port, Taken, end_of};
use crate::grammars::{QUARTERS, QUARTERS_OF_RESTS, USUAL, WHOLE};
use crate::running::{Ports, run_over, words_of};
use crate::talks::{
    BAR_COMES_AND_GOES, CHORD_COMES_AND_GOES, Exchange, NOTE_JOINS_A_CHORD, NOTE_OVER_THREE_BARS,
    RHYTHMS_OF_A_BAR, lines_within, replies_to, script_of,
};
use rhythm_ports::{OpenGate, SureShelf, SureSink, SureSource};
use std::alloc::{AllocError, Global};
use std::test::Fail;
use std::thread::Threads;

/// No run of these tests makes so many calls of a port.
const MOST_CALLS: u64 = 10_000;

/// The words, the files in the order in which they are read, the script and its replies; and the fewest bytes that a call moves, more
/// than one where many runs would take long.
#[derive(Clone, Copy)]
struct Use {
    words: &'static [&'static str],
    files: &'static [(&'static str, &'static [u8])],
    talk: &'static [Exchange],
    fewest: usize,
}

/// Uses that end with status 0 where no call fails.
const USES: &[Use] = &[
    Use {
        words: &["transcribe", "a.mid", "a.grammar"],
        files: &[("a.mid", FOUR_QUARTERS), ("a.grammar", QUARTERS)],
        talk: &[],
        fewest: 1,
    },
    Use {
        words: &["edit", "a.mid", "a.grammar"],
        files: &[("a.mid", FOUR_QUARTERS), ("a.grammar", USUAL)],
        talk: NOTE_JOINS_A_CHORD,
        fewest: 1,
    },
    Use {
        words: &["edit", "a.mid", "a.grammar"],
        files: &[("a.mid", WHOLE_NOTE), ("a.grammar", USUAL)],
        talk: NOTE_OVER_THREE_BARS,
        fewest: 1,
    },
    Use {
        words: &["edit", "a.mid", "a.grammar"],
        files: &[("a.mid", FOUR_QUARTERS), ("a.grammar", USUAL)],
        talk: RHYTHMS_OF_A_BAR,
        fewest: 1,
    },
    Use {
        words: &["studio", "a.mid", "a.grammar"],
        files: &[("a.mid", FOUR_QUARTERS), ("a.grammar", USUAL)],
        talk: CHORD_COMES_AND_GOES,
        fewest: 1,
    },
    Use {
        words: &["lily", "a.mid", "a.grammar"],
        files: &[("a.mid", FOUR_QUARTERS), ("a.grammar", QUARTERS)],
        talk: &[],
        fewest: 1,
    },
    Use {
        words: &["render", "a.mid", "a.grammar"],
        files: &[("a.mid", FOUR_QUARTERS), ("a.grammar", QUARTERS)],
        talk: &[],
        fewest: 1,
    },
    Use {
        words: &["page", "a.mid", "a.grammar"],
        files: &[("a.mid", FOUR_QUARTERS), ("a.grammar", QUARTERS)],
        talk: &[],
        fewest: 20,
    },
    Use {
        words: &["musicxml", "a.mid", "a.grammar"],
        files: &[("a.mid", FOUR_QUARTERS), ("a.grammar", QUARTERS)],
        talk: &[],
        fewest: 20,
    },
    Use {
        words: &["lily", "a.mid", "a.grammar", "--script", "a.script"],
        files: &[
            ("a.mid", FOUR_QUARTERS),
            ("a.grammar", USUAL),
            ("a.script", BAR_COMES_AND_GOES),
        ],
        talk: &[],
        fewest: 1,
    },
    Use {
        words: &["studio", "a.mid", "a.grammar", "--script", "a.script"],
        files: &[
            ("a.mid", FOUR_QUARTERS),
            ("a.grammar", USUAL),
            ("a.script", BAR_COMES_AND_GOES),
        ],
        talk: CHORD_COMES_AND_GOES,
        fewest: 20,
    },
    Use {
        words: &["fit", "a.mid", "a.grammar", "1", "1880", "1920", "20"],
        files: &[("a.mid", EARLY_NOTE), ("a.grammar", USUAL)],
        talk: &[],
        fewest: 1,
    },
    Use {
        words: &["follow", "a.mid", "a.grammar"],
        files: &[("a.mid", EARLY_NOTE), ("a.grammar", WHOLE)],
        talk: &[],
        fewest: 20,
    },
    Use {
        words: &["learn", "17", "a.grammar", "1.mid", "2.mid"],
        files: &[
            ("a.grammar", USUAL),
            ("1.mid", FOUR_QUARTERS),
            ("2.mid", EARLY_NOTE),
        ],
        talk: &[],
        fewest: 20,
    },
    Use {
        words: &["notes", "a.mid"],
        files: &[("a.mid", FOUR_QUARTERS)],
        talk: &[],
        fewest: 1,
    },
    Use {
        words: &["events", "a.krn"],
        files: &[("a.krn", TWO_VOICES_SCORE)],
        talk: &[],
        fewest: 1,
    },
    Use {
        words: &["generate", "7", "1"],
        files: &[],
        talk: &[],
        fewest: 1,
    },
    Use {
        words: &["drill", "7", "a.grammar"],
        files: &[("a.grammar", USUAL)],
        talk: &[],
        fewest: 20,
    },
    Use {
        words: &["--help"],
        files: &[],
        talk: &[],
        fewest: 20,
    },
];

/// What a use takes where a call of a port fails.
fn taken_from<R: Threads + Sync>(
    rt: &R,
    alloc: Global,
    most: usize,
    used: &Use,
    failing: Failing,
) -> Result<Taken, AllocError> {
    let script = script_of(alloc, used.talk)?;
    let given = Given {
        words: used.words,
        files: used.files,
        script: &script,
    };
    end_of(rt, alloc, most, &given, failing, &OpenGate)
}

/// The line of a run whose shelf fails at a call. None of its calls has the number where there is none.
fn shelf_line(used: &Use, most: usize, call: u64) -> Option<&'static [u8]> {
    let most = most.max(1);
    let mut left = call;
    'files: for (name, bytes) in used.files {
        // a file is opened, read in pieces, and read once more at its end
        let calls = bytes.len().div_ceil(most).saturating_add(2) as u64;
        match left.checked_sub(calls) {
            Some(rest) => left = rest,
            None => {
                return Some(match *name {
                    "a.mid" => b"read midi\n",
                    "a.grammar" => b"read grammar\n",
                    "1.mid" => b"file 1 read midi\n",
                    "2.mid" => b"file 2 read midi\n",
                    "a.script" => b"read script-file\n",
                    _ => b"read kern\n",
                });
            }
        }
    }
    None
}

/// Whether the file is named that is read when a call of the shelf fails, and nothing is written.
fn names_each_file<R: Threads + Sync>(
    rt: &R,
    alloc: Global,
    most: usize,
    used: &Use,
) -> Result<bool, AllocError> {
    'calls: for call in 0..MOST_CALLS {
        let port = Port::Shelf;
        let end = taken_from(rt, alloc, most, used, Failing { port, call })?;
        let Some(line) = shelf_line(used, most, call) else {
            return Ok(end.status == 0 && end.err.bytes().is_empty());
        };
        let unread = Ending {
            status: 5,
            out: b"",
            err: line,
        };
        if !end.is(&unread) {
            return Ok(false);
        }
    }
    Ok(false)
}

/// How often a script is read: in pieces, and once more at its end, unless a line ends it.
fn script_calls(script: &[u8], most: usize) -> u64 {
    let pieces = script.len().div_ceil(most.max(1)) as u64;
    if script.is_empty() || script.ends_with(b"quit\n") {
        return pieces;
    }
    pieces.saturating_add(1)
}

/// Whether the lines are answered that are whole before a call of the script fails, and no other.
fn answers_each_line<R: Threads + Sync>(
    rt: &R,
    alloc: Global,
    most: usize,
    used: &Use,
) -> Result<bool, AllocError> {
    let calls = script_calls(&script_of(alloc, used.talk)?, most);
    'calls: for call in 0..MOST_CALLS {
        let port = Port::Script;
        let end = taken_from(rt, alloc, most, used, Failing { port, call })?;
        if calls <= call {
            return Ok(end.status == 0 && end.err.bytes().is_empty());
        }
        let lines = lines_within(used.talk, most.saturating_mul(call as usize), false);
        let replies = replies_to(alloc, used.talk, lines)?;
        let unread = Ending {
            status: 5,
            out: &replies,
            err: b"read script\n",
        };
        if !end.is(&unread) {
            return Ok(false);
        }
    }
    Ok(false)
}

/// Whether it is a first part of the text, longer than the one before, and of no byte at the first call.
fn goes_on(text: &[u8], part: &[u8], before: usize, call: u64) -> bool {
    let grown = if call == 0 {
        part.is_empty()
    } else {
        before < part.len()
    };
    grown && part.len() < text.len() && text.starts_with(part)
}

/// Whether a first part is written before a call of out fails.
fn writes_a_part<R: Threads + Sync>(
    rt: &R,
    alloc: Global,
    most: usize,
    used: &Use,
) -> Result<bool, AllocError> {
    let whole = taken_from(rt, alloc, most, used, NONE_FAILS)?;
    let text = whole.out.bytes();
    let mut before = 0;
    'calls: for call in 0..MOST_CALLS {
        let port = Port::Out;
        let end = taken_from(rt, alloc, most, used, Failing { port, call })?;
        let part = end.out.bytes();
        if end.status == 0 {
            let moved = most.saturating_mul(call as usize);
            return Ok(part == text && end.err.bytes().is_empty() && text.len() <= moved);
        }
        let cut = end.status == 6 && end.err.bytes() == b"write\n".as_slice();
        if !cut || !goes_on(text, part, before, call) {
            return Ok(false);
        }
        before = part.len();
    }
    Ok(false)
}

#[test]
fn each_call_of_the_shelf_may_fail(rt: HostRuntime) -> Result<(), Fail> {
    for used in USES {
        let command = used.words.first().copied().unwrap_or("");
        for most in [1, 2, 3, 20, 4096] {
            let holds = most < used.fewest || names_each_file(&rt, rt.alloc(), most, used)?;
            assert!(rt; holds, "{command} by {most}");
        }
    }
    Ok(())
}

#[test]
fn each_call_of_the_script_may_fail(rt: HostRuntime) -> Result<(), Fail> {
    for used in USES {
        let command = used.words.first().copied().unwrap_or("");
        for most in [1, 2, 3, 20, 4096] {
            let holds = most < used.fewest || answers_each_line(&rt, rt.alloc(), most, used)?;
            assert!(rt; holds, "{command} by {most}");
        }
    }
    Ok(())
}

#[test]
fn each_call_of_out_may_fail(rt: HostRuntime) -> Result<(), Fail> {
    for used in USES {
        let command = used.words.first().copied().unwrap_or("");
        for most in [1, 2, 3, 20, 4096] {
            let holds = most < used.fewest || writes_a_part(&rt, rt.alloc(), most, used)?;
            assert!(rt; holds, "{command} by {most}");
        }
    }
    Ok(())
}

/// Uses that end with a line.
const STOPS: &[(Given<'static>, Ending<'static>)] = &[
    (
        Given {
            words: &[],
            files: &[],
            script: b"",
        },
        Ending {
            status: 1,
            out: b"",
            err: b"usage\nthere is no command\nfor the commands: rhythm --help\n",
        },
    ),
    (
        Given {
            words: &["transcribe", "a.mid", "a.grammar"],
            files: &[("a.mid", NO_BYTES), ("a.grammar", QUARTERS)],
            script: b"",
        },
        Ending {
            status: 2,
            out: b"",
            err: b"smf NotSmf\n",
        },
    ),
    (
        Given {
            words: &["transcribe", "a.mid", "a.grammar"],
            files: &[("a.mid", FOUR_QUARTERS), ("a.grammar", QUARTERS_OF_RESTS)],
            script: b"",
        },
        Ending {
            status: 3,
            out: b"",
            err: b"no derivation 0 0\n",
        },
    ),
    (
        Given {
            words: &["edit", "a.mid", "a.grammar"],
            files: &[("a.mid", TOO_MANY_BARS), ("a.grammar", WHOLE)],
            script: b"addbar\n",
        },
        Ending {
            status: 4,
            out: b"",
            err: b"limit bars 16384\n",
        },
    ),
    (
        Given {
            words: &["fit", "a.mid", "a.grammar", "1", "0", "0", "1"],
            files: &[("a.mid", EARLY_NOTE), ("a.grammar", USUAL)],
            script: b"",
        },
        Ending {
            status: 9,
            out: b"",
            err: b"fit NoCandidate\n",
        },
    ),
    (
        Given {
            words: &["page", "a.mid", "a.grammar", "--script", "a.script"],
            files: &[
                ("a.mid", FOUR_QUARTERS),
                ("a.grammar", USUAL),
                ("a.script", b"addbar\ndrop 0 61 0\n"),
            ],
            script: b"",
        },
        Ending {
            status: 2,
            out: b"",
            err: b"script 2 NoNote\n",
        },
    ),
    (
        Given {
            words: &["events", "b.krn"],
            files: &[("a.krn", TWO_VOICES_SCORE)],
            script: b"",
        },
        Ending {
            status: 5,
            out: b"",
            err: b"read kern\n",
        },
    ),
];

/// Whether the run ends as it does where no call fails, with a first part of its line, when a call of err fails.
fn says_a_part<R: Threads + Sync>(
    rt: &R,
    alloc: Global,
    most: usize,
    given: &Given<'_>,
    ending: &Ending<'_>,
) -> Result<bool, AllocError> {
    let mut before = 0;
    'calls: for call in 0..MOST_CALLS {
        let port = Port::Err;
        let end = end_of(rt, alloc, most, given, Failing { port, call }, &OpenGate)?;
        let part = end.err.bytes();
        if part == ending.err {
            return Ok(end.is(ending) && part.len() <= most.saturating_mul(call as usize));
        }
        let same = end.status == ending.status && end.out.bytes() == ending.out;
        if !same || !goes_on(ending.err, part, before, call) {
            return Ok(false);
        }
        before = part.len();
    }
    Ok(false)
}

#[test]
fn each_call_of_err_may_fail(rt: HostRuntime) -> Result<(), Fail> {
    for (given, ending) in STOPS {
        for most in [1, 2, 3, 4096] {
            assert!(rt;
                says_a_part(&rt, rt.alloc(), most, given, ending)?,
                "status {} by {most}",
                ending.status
            );
        }
    }
    Ok(())
}

#[test]
fn ports_that_never_fail_do(rt: HostRuntime) -> Result<(), Fail> {
    let alloc = rt.alloc();
    let words = words_of(alloc, &["transcribe", "a.mid", "a.grammar"])?;
    let mut shelf = SureShelf::new(alloc, 10);
    shelf.put("a.mid", Vec::from_slice(alloc, FOUR_QUARTERS)?)?;
    shelf.put("a.grammar", Vec::from_slice(alloc, QUARTERS)?)?;
    let ports = Ports {
        shelf: &mut shelf,
        script: &mut SureSource::new(Vec::new(alloc), 10),
        out: &mut SureSink::new(),
        err: &mut SureSink::new(),
    };
    let ran = run_over(&rt, alloc, &words, ports, &OpenGate);
    assert!(rt; ran.status == 0 && ran.builds == 1);
    Ok(())
}
