use crate::pieces::{InTests, grammar};
use carry_matrix::Steps as Products;
use drill_run::{made_performance, run_drill};
use edit_session::Session;
use least_cost::Steps as Builds;
use rhythm_gen::PieceNumber;
use rhythm_ports::{Means, OpenGate};
use std::alloc::{AllocError, Global};
use std::test::Fail;
use std::thread::Threads;

/// A drill: its number, its summary, and how many cells are built for the session and its edits.
struct Drill {
    number: u32,
    summary: &'static [u8],
    cells: u64,
}

/// What an independent program says of the drills of these numbers. In the second an edit adds a note that is there already.
const DRILLS: [Drill; 2] = [
    Drill {
        number: 7,
        summary: b"bars 500\ncells 1000\naccepted 40\nbuilt 70\ncost 233929\nbytes 22926\n",
        cells: 1070,
    },
    Drill {
        number: 100,
        summary: b"bars 500\ncells 1000\naccepted 39\nbuilt 69\ncost 237065\nbytes 23187\n",
        cells: 1069,
    },
];

/// The summary of the drill of a number, with two workers.
fn summary_of<R: Threads + Sync>(
    rt: &R,
    alloc: Global,
    number: PieceNumber,
    builds: &mut Builds<InTests>,
) -> Option<Vec<u8>> {
    let Ok(performance) = made_performance(alloc, number) else {
        return None;
    };
    let grammar = grammar(alloc)?;
    let mut products = Products::<InTests>::zero();
    let means = Means {
        rt,
        alloc,
        gate: &OpenGate,
    };
    let opened = Session::open(&means, performance, grammar, 2, builds, &mut products);
    match opened {
        Ok(session) => match run_drill(&means, session, number, builds, &mut products) {
            Ok(text) => Some(text),
            Err(_) => None,
        },
        Err(_) => None,
    }
}

#[test]
fn drills_come_to_their_summaries(rt: HostRuntime) -> Result<(), Fail> {
    let alloc = rt.alloc();
    for drill in &DRILLS {
        let mut builds = Builds::<InTests>::zero();
        let Some(number) = PieceNumber::new(drill.number) else {
            return Err(AllocError)?;
        };
        let Some(text) = summary_of(&rt, alloc, number, &mut builds) else {
            return Err(AllocError)?;
        };
        assert!(rt; text.as_slice() == drill.summary, "{}", drill.number);
        assert!(rt; builds.count() == drill.cells, "{}", drill.number);
    }
    Ok(())
}
