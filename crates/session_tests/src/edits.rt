use crate::library::edited_score;
use crate::pieces::{FOUR_QUARTERS, InTests, THREE_EIGHTHS, THREE_NEAR, WHOLE_NOTE, opened};
use carry_matrix::Steps as Products;
use edit_script::{Command, read_line};
use edit_session::{Applied, Session};
use least_cost::Steps as Builds;
use rhythm_base::{Edit, EditFault};
use rhythm_ports::{Means, OpenGate};
use sample_grammars::USUAL;
use session_text::KernText;
use std::alloc::{AllocError, Global};
use std::test::Fail;
use std::thread::Threads;

/// What becomes of the edit of a line: the cells that it reaches and the cost afterwards, or why it is refused.
#[derive(Clone, Copy, Debug, PartialEq, Eq)]
enum Reply {
    Made(u64, u64),
    Refused(EditFault),
}

/// A script: what it shows, the piece, the cost at first, each line with its reply, and the score at the end.
struct Script {
    shows: &'static str,
    piece: &'static [u8],
    cost: u64,
    lines: &'static [(&'static str, Reply)],
    score: &'static [u8],
}

/// The score of the four quarters.
pub const QUARTERS: &[u8] = b"**kern\n*M4/4\n*MM120\n=1\n4c\n4d\n4e\n4f\n==\n*-\n";

const SCRIPTS: [Script; 8] = [
    Script {
        shows: "a note joins a chord and reaches no cell",
        piece: FOUR_QUARTERS,
        cost: 100,
        lines: &[("add 0 64 10 480", Reply::Made(0, 100))],
        score: b"**kern\n*M4/4\n*MM120\n=1\n4c 4e\n4d\n4e\n4f\n==\n*-\n",
    },
    Script {
        shows: "a note sounds over three bars",
        piece: WHOLE_NOTE,
        cost: 10,
        lines: &[
            ("addbar", Reply::Made(1, 15)),
            ("addbar", Reply::Made(1, 20)),
            ("drop 0 60 0", Reply::Made(1, 15)),
            ("add 0 60 0 5760", Reply::Made(3, 30)),
        ],
        score: b"**kern\n*M4/4\n*MM120\n=1\n[1c\n=2\n1c_\n=3\n1c]\n==\n*-\n",
    },
    Script {
        shows: "a barline moves",
        piece: WHOLE_NOTE,
        cost: 10,
        lines: &[
            ("addbar", Reply::Made(1, 15)),
            ("addbar", Reply::Made(1, 20)),
            ("drop 0 60 0", Reply::Made(1, 15)),
            ("add 0 60 0 5760", Reply::Made(3, 30)),
            (
                "barline 1 3840",
                Reply::Refused(EditFault::BarlineOrder { low: 0, high: 3840 }),
            ),
            ("barline 1 2000", Reply::Made(2, 30)),
        ],
        score: b"**kern\n*M4/4\n*MM120\n=1\n[1c\n=2\n1c_\n=3\n1c]\n==\n*-\n",
    },
    Script {
        shows: "a chord of two notes is left",
        piece: THREE_NEAR,
        cost: 250,
        lines: &[("drop 0 60 0", Reply::Made(1, 50))],
        score: b"**kern\n*M4/4\n*MM120\n=1\n1d 1e\n==\n*-\n",
    },
    Script {
        shows: "a pin asks for eighths",
        piece: FOUR_QUARTERS,
        cost: 100,
        lines: &[
            (
                "pin 0 0 2(. .)",
                Reply::Refused(EditFault::NoDerivation { channel: 0, bar: 0 }),
            ),
            ("pin 0 0 2(2(. .) 2(. 2(. .)))", Reply::Made(1, 150)),
        ],
        score: b"**kern\n*M4/4\n*MM120\n=1\n4c\n4d\n4e\n[8f\n8f]\n==\n*-\n",
    },
    Script {
        shows: "a pin is taken away",
        piece: FOUR_QUARTERS,
        cost: 100,
        lines: &[
            ("pin 0 0 2(2(. .) 2(. 2(. .)))", Reply::Made(1, 150)),
            (
                "pin 0 0 2(. .)",
                Reply::Refused(EditFault::NoDerivation { channel: 0, bar: 0 }),
            ),
            ("unpin 0 0", Reply::Made(1, 100)),
        ],
        score: QUARTERS,
    },
    Script {
        shows: "a pin asks for a dotted note",
        piece: THREE_EIGHTHS,
        cost: 40,
        lines: &[("pin 0 0 2(2(. 2(. .)) .)", Reply::Made(1, 120))],
        score: b"**kern\n*M4/4\n*MM120\n=1\n4.c\n8r\n2r\n==\n*-\n",
    },
    Script {
        shows: "edits are refused, and a bar comes and goes",
        piece: FOUR_QUARTERS,
        cost: 100,
        lines: &[
            ("add 1 60 0 10", Reply::Refused(EditFault::NoVoice(1))),
            ("add 0 60 10 5", Reply::Refused(EditFault::BadSpan)),
            ("add 0 60 0 480", Reply::Refused(EditFault::SameNote)),
            (
                "add 0 61 1800 2000",
                Reply::Refused(EditFault::PastEnd { last: 1920 }),
            ),
            ("drop 0 61 0", Reply::Refused(EditFault::NoNote)),
            (
                "move 0 60 0 1900",
                Reply::Refused(EditFault::PastEnd { last: 1920 }),
            ),
            ("barline 0 5", Reply::Refused(EditFault::NoBar(0))),
            (
                "barline 1 1000",
                Reply::Refused(EditFault::NoteOutside { onset: 960 }),
            ),
            ("addbar", Reply::Made(1, 105)),
            ("dropbar", Reply::Made(0, 100)),
            ("addbar", Reply::Made(1, 105)),
            ("add 0 60 1920 2400", Reply::Made(1, 140)),
            (
                "dropbar",
                Reply::Refused(EditFault::NotEmpty { onset: 1920 }),
            ),
            ("move 0 60 0 0", Reply::Made(0, 140)),
        ],
        score: b"**kern\n*M4/4\n*MM120\n=1\n4c\n4d\n4e\n4f\n=2\n2c\n2r\n==\n*-\n",
    },
];

/// Makes the edit of a line.
pub fn edit<R: Threads + Sync>(
    rt: &R,
    alloc: Global,
    session: &mut Session,
    line: &str,
    builds: &mut Builds<InTests>,
    products: &mut Products<InTests>,
) -> Result<Applied, EditFault> {
    let means = Means {
        rt,
        alloc,
        gate: &OpenGate,
    };
    match read_line(alloc, line.as_bytes()) {
        Ok(Command::Change(edit)) => session.apply(&means, &edit, builds, products),
        _ => Err(EditFault::Memory),
    }
}

/// The reply to a line, where the counter of built cells rose by as many as it names.
fn answer<R: Threads + Sync>(
    rt: &R,
    alloc: Global,
    session: &mut Session,
    line: &str,
) -> Option<Reply> {
    let mut builds = Builds::<InTests>::zero();
    let mut products = Products::<InTests>::zero();
    let outcome = edit(rt, alloc, session, line, &mut builds, &mut products);
    let count = builds.count();
    match outcome {
        Ok(applied) if applied.built == count && applied.cost == session.cost() => {
            Some(Reply::Made(applied.built, applied.cost))
        }
        Ok(_) => None,
        Err(fault) => Some(Reply::Refused(fault)),
    }
}

/// Whether the session has this score.
pub fn has_score(alloc: Global, session: &Session, score: &[u8]) -> bool {
    match session.score(alloc) {
        Ok(text) => text.as_slice() == score,
        Err(_) => false,
    }
}

#[test]
fn scripts_have_their_replies(rt: HostRuntime) -> Result<(), Fail> {
    let alloc = rt.alloc();
    for script in &SCRIPTS {
        let Some(mut session) = opened(&rt, alloc, script.piece) else {
            return Err(AllocError)?;
        };
        assert_eq!(rt; session.cost(), script.cost);
        for (line, wanted) in script.lines {
            assert_eq!(rt;
                answer(&rt, alloc, &mut session, line),
                Some(*wanted),
                "{line}"
            );
        }
        assert!(rt;
            has_score(alloc, &session, script.score),
            "{}",
            script.shows
        );
    }
    Ok(())
}

#[test]
fn a_refused_edit_leaves_the_score(rt: HostRuntime) -> Result<(), Fail> {
    let alloc = rt.alloc();
    let Some(mut session) = opened(&rt, alloc, FOUR_QUARTERS) else {
        return Err(AllocError)?;
    };
    for line in ["pin 0 0 2(. .)", "add 0 60 0 480", "dropbar"] {
        let refused = answer(&rt, alloc, &mut session, line);
        assert!(rt; matches!(&refused, Some(Reply::Refused(_))), "{line}");
        assert!(rt; has_score(alloc, &session, QUARTERS), "{line}");
        assert_eq!(rt; session.cost(), 100);
    }
    Ok(())
}

#[test]
fn a_note_over_three_bars_makes_six_products(rt: HostRuntime) -> Result<(), Fail> {
    let alloc = rt.alloc();
    let Some(mut session) = opened(&rt, alloc, WHOLE_NOTE) else {
        return Err(AllocError)?;
    };
    for line in ["addbar", "addbar", "drop 0 60 0"] {
        assert!(rt; answer(&rt, alloc, &mut session, line).is_some(), "{line}");
    }
    let mut builds = Builds::<InTests>::zero();
    let mut products = Products::<InTests>::zero();
    let made = edit(
        &rt,
        alloc,
        &mut session,
        "add 0 60 0 5760",
        &mut builds,
        &mut products,
    )?;
    assert_eq!(rt; made, Applied { built: 3, cost: 30 });
    assert!(rt; products.count() <= 6);
    Ok(())
}

#[test]
fn the_score_of_two_files_and_an_edit(rt: HostRuntime) -> Result<(), Fail> {
    let joining = Edit::Add {
        channel: 0,
        key: 64,
        onset: 10,
        end: 480,
    };
    let text = edited_score(&rt, rt.alloc(), FOUR_QUARTERS, USUAL, &joining)?;
    let score: &[u8] = b"**kern\n*M4/4\n*MM120\n=1\n4c 4e\n4d\n4e\n4f\n==\n*-\n";
    assert!(rt; text.as_slice() == score);
    Ok(())
}
