use crate::edits::{QUARTERS, has_score};
use crate::pieces::{FOUR_QUARTERS, InTests, WHOLE_NOTE, opened};
use carry_matrix::Steps as Products;
use edit_script::{Command, Reply as Answer};
use least_cost::Steps as Builds;
use rhythm_base::EditFault;
use rhythm_ports::{Means, MemSink, OpenGate};
use session_history::{
    History, MOST_STEPS, NoStep, StudioCommand, StudioReply, read_studio_line, write_studio_reply,
};
use std::alloc::{AllocError, Global};
use std::test::Fail;
use std::thread::Threads;

/// What a line of a studio does: the cells that it builds and the cost afterwards, or why the edit is refused, or that there is no step.
#[derive(Clone, Copy, Debug, PartialEq, Eq)]
enum Reply {
    Made(u64, u64),
    Refused(EditFault),
    NoStep,
}

/// The score of the four quarters with another note beside the first.
const QUARTERS_AND_A_NOTE: &[u8] = b"**kern\n*M4/4\n*MM120\n=1\n4c 4e\n4d\n4e\n4f\n==\n*-\n";

/// The reply to a line, where the counter of built cells rose by as many as it names.
fn answer<R: Threads + Sync>(
    rt: &R,
    alloc: Global,
    history: &mut History,
    line: &str,
) -> Option<Reply> {
    let mut builds = Builds::<InTests>::zero();
    let mut products = Products::<InTests>::zero();
    let means = Means {
        rt,
        alloc,
        gate: &OpenGate,
    };
    let reply = match read_studio_line(alloc, line.as_bytes()) {
        Ok(StudioCommand::Undo) => match history.undo(&mut products) {
            Ok(applied) => Reply::Made(applied.built, applied.cost),
            Err(NoStep) => Reply::NoStep,
        },
        Ok(StudioCommand::Redo) => match history.redo(&mut products) {
            Ok(applied) => Reply::Made(applied.built, applied.cost),
            Err(NoStep) => Reply::NoStep,
        },
        Ok(StudioCommand::Plain(Command::Change(edit))) => {
            match history.apply(&means, &edit, &mut builds, &mut products) {
                Ok(applied) => Reply::Made(applied.built, applied.cost),
                Err(fault) => Reply::Refused(fault),
            }
        }
        _ => return None,
    };
    match reply {
        Reply::Made(built, cost) if built == builds.count() && cost == history.session().cost() => {
            Some(reply)
        }
        Reply::Made(_, _) => None,
        _ => Some(reply),
    }
}

/// A history of a session on a piece.
fn begun<R: Threads + Sync>(rt: &R, alloc: Global, piece: &[u8]) -> Option<History> {
    match History::new(alloc, opened(rt, alloc, piece)?) {
        Ok(history) => Some(history),
        Err(_) => None,
    }
}

#[test]
fn edits_are_taken_back_and_made_again(rt: HostRuntime) -> Result<(), Fail> {
    let alloc = rt.alloc();
    let Some(mut history) = begun(&rt, alloc, FOUR_QUARTERS) else {
        return Err(AllocError)?;
    };
    for (line, wanted, score) in [
        ("undo", Reply::NoStep, QUARTERS),
        ("add 0 64 10 480", Reply::Made(0, 100), QUARTERS_AND_A_NOTE),
        ("undo", Reply::Made(0, 100), QUARTERS),
        ("drop 0 64 10", Reply::Refused(EditFault::NoNote), QUARTERS),
        ("redo\r", Reply::Made(0, 100), QUARTERS_AND_A_NOTE),
        ("drop 0 64 10", Reply::Made(0, 100), QUARTERS),
        ("redo", Reply::NoStep, QUARTERS),
        ("undo", Reply::Made(0, 100), QUARTERS_AND_A_NOTE),
        ("undo", Reply::Made(0, 100), QUARTERS),
    ] {
        let reply = answer(&rt, alloc, &mut history, line);
        assert_eq!(rt; reply, Some(wanted), "{line}");
        assert!(rt; has_score(alloc, history.session(), score), "{line}");
    }
    Ok(())
}

#[test]
fn bars_come_and_go(rt: HostRuntime) -> Result<(), Fail> {
    let alloc = rt.alloc();
    let Some(mut history) = begun(&rt, alloc, WHOLE_NOTE) else {
        return Err(AllocError)?;
    };
    for (line, wanted) in [
        ("addbar", Reply::Made(1, 15)),
        ("dropbar", Reply::Made(0, 10)),
        ("undo", Reply::Made(0, 15)),
        ("undo", Reply::Made(0, 10)),
        ("undo", Reply::NoStep),
        ("redo", Reply::Made(0, 15)),
        ("redo", Reply::Made(0, 10)),
        ("redo", Reply::NoStep),
    ] {
        let reply = answer(&rt, alloc, &mut history, line);
        assert_eq!(rt; reply, Some(wanted), "{line}");
    }
    Ok(())
}

#[test]
fn the_oldest_step_is_let_go(rt: HostRuntime) -> Result<(), Fail> {
    let alloc = rt.alloc();
    let Some(mut history) = begun(&rt, alloc, WHOLE_NOTE) else {
        return Err(AllocError)?;
    };
    for _step in 0..=MOST_STEPS {
        let reply = answer(&rt, alloc, &mut history, "addbar");
        assert!(rt; matches!(&reply, Some(Reply::Made(1, _))));
    }
    for step in 0..MOST_STEPS {
        let reply = answer(&rt, alloc, &mut history, "undo");
        let cost = 5 * (MOST_STEPS - step) as u64 + 10;
        assert_eq!(rt; reply, Some(Reply::Made(0, cost)));
    }
    let reply = answer(&rt, alloc, &mut history, "undo");
    assert_eq!(rt; reply, Some(Reply::NoStep));
    Ok(())
}

#[test]
fn a_line_with_more_than_the_word_is_no_step(rt: HostRuntime) -> Result<(), Fail> {
    let alloc = rt.alloc();
    for line in ["undo ", " undo", "undo\r\r", "redo 1", "Undo", ""] {
        assert!(rt; read_studio_line(alloc, line.as_bytes()).is_err(), "{line}");
    }
    Ok(())
}

#[test]
fn no_step_has_a_reply_of_its_own(rt: HostRuntime) -> Result<(), Fail> {
    let alloc = rt.alloc();
    let mut sink = MemSink::new(alloc, 3, Vec::new(alloc));
    assert!(rt; write_studio_reply(&mut sink, &StudioReply::NoStep).is_ok());
    assert!(rt; write_studio_reply(&mut sink, &StudioReply::Plain(Answer::Bye)).is_ok());
    assert!(rt; sink.bytes() == b"refused NoStep\nbye\n".as_slice());
    Ok(())
}
