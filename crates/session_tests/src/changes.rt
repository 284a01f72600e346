use crate::edits::{QUARTERS, edit, has_score};
use crate::pieces::{FOUR_QUARTERS, InTests, opened};
use carry_matrix::Steps as Products;
use edit_script::{Command, read_line};
use edit_session::{Applied, Dead, Session};
use least_cost::Steps as Builds;
use rhythm_ports::{Means, OpenGate};
use std::alloc::{AllocError, Global};
use std::test::Fail;
use std::thread::Threads;

/// The score of the four quarters with an empty bar after them.
const QUARTERS_AND_A_BAR: &[u8] = b"**kern\n*M4/4\n*MM120\n=1\n4c\n4d\n4e\n4f\n=2\n1r\n==\n*-\n";

/// Makes the edit of a line ready, commits it, and commits the way back: what the two commits were. None where the line is
/// no edit that is made.
fn there_and_back<R: Threads + Sync>(
    rt: &R,
    alloc: Global,
    session: &mut Session,
    line: &str,
) -> Option<[Applied; 2]> {
    let mut builds = Builds::<InTests>::zero();
    let mut products = Products::<InTests>::zero();
    let Ok(Command::Change(edit)) = read_line(alloc, line.as_bytes()) else {
        return None;
    };
    let means = Means {
        rt,
        alloc,
        gate: &OpenGate,
    };
    let Ok(prepared) = session.prepare(&means, &edit, &mut builds) else {
        return None;
    };
    let bars = prepared.next().bars().len() as u32;
    if session.reserve(bars).is_err() {
        return None;
    }
    let Ok(there) = session.commit(prepared, &mut products) else {
        return None;
    };
    let Ok(back) = session.commit(there.back, &mut products) else {
        return None;
    };
    Some([there.applied, back.applied])
}

/// Makes the edit of a line ready and commits it, where some voice then has no derivation. None where it is none of these.
fn dead_after<R: Threads + Sync>(
    rt: &R,
    alloc: Global,
    session: &mut Session,
    line: &str,
) -> Option<Dead> {
    let mut builds = Builds::<InTests>::zero();
    let mut products = Products::<InTests>::zero();
    let Ok(Command::Change(edit)) = read_line(alloc, line.as_bytes()) else {
        return None;
    };
    let means = Means {
        rt,
        alloc,
        gate: &OpenGate,
    };
    let Ok(prepared) = session.prepare(&means, &edit, &mut builds) else {
        return None;
    };
    let bars = prepared.next().bars().len() as u32;
    if session.reserve(bars).is_err() {
        return None;
    }
    match session.commit(prepared, &mut products) {
        Ok(_) => None,
        Err(dead) => Some(dead),
    }
}

#[test]
fn a_change_is_taken_back(rt: HostRuntime) -> Result<(), Fail> {
    let alloc = rt.alloc();
    let Some(mut session) = opened(&rt, alloc, FOUR_QUARTERS) else {
        return Err(AllocError)?;
    };
    let at_first = Applied {
        built: 0,
        cost: 100,
    };
    // No cell is reached.
    let both = there_and_back(&rt, alloc, &mut session, "add 0 64 10 480");
    assert_eq!(rt; both, Some([at_first, at_first]));
    assert!(rt; has_score(alloc, &session, QUARTERS));
    // A bar is added and dropped again.
    let with_bar = Applied {
        built: 1,
        cost: 105,
    };
    let both = there_and_back(&rt, alloc, &mut session, "addbar");
    assert_eq!(rt; both, Some([with_bar, at_first]));
    assert!(rt; has_score(alloc, &session, QUARTERS));
    // A bar is dropped and comes back.
    let mut builds = Builds::<InTests>::zero();
    let mut products = Products::<InTests>::zero();
    let made = edit(
        &rt,
        alloc,
        &mut session,
        "addbar",
        &mut builds,
        &mut products,
    )?;
    assert_eq!(rt; made, with_bar);
    let both = there_and_back(&rt, alloc, &mut session, "dropbar");
    assert_eq!(rt; both, Some([at_first, with_bar]));
    assert!(rt; has_score(alloc, &session, QUARTERS_AND_A_BAR));
    Ok(())
}

#[test]
fn a_dead_voice_leaves_the_session(rt: HostRuntime) -> Result<(), Fail> {
    let alloc = rt.alloc();
    let Some(mut session) = opened(&rt, alloc, FOUR_QUARTERS) else {
        return Err(AllocError)?;
    };
    let dead = dead_after(&rt, alloc, &mut session, "pin 0 0 2(. .)");
    assert_eq!(rt; dead, Some(Dead { channel: 0, bar: 0 }));
    assert!(rt; has_score(alloc, &session, QUARTERS));
    assert_eq!(rt; session.cost(), 100);
    Ok(())
}
