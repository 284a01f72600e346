ghost use Rattle.barline_fit.specs.declared.candidates.TheConstants.{MOST_CANDIDATES};
ghost use Rattle.rhythm_base.specs.declared.limits.TheConstants.{LATEST_TICK};
ghost use Rattle.std.specs.Prelude.{◌≤◌, ◌<◌, ◌-◌, ◌/◌};

use crate::edits::{QUARTERS, edit, has_score};
use crate::pieces::{EARLY_NOTE, FOUR_QUARTERS, InTests, opened};
use barline_fit::{Candidates, FitFault, Fitted, best_barline};
use carry_matrix::Steps as Products;
use edit_session::Session;
use least_cost::Steps as Builds;
use rhythm_ports::{Means, OpenGate};
use std::alloc::{AllocError, Global};
use std::test::Fail;
use std::thread::Threads;

/// The score of the two notes, wherever the barline between them is.
const TWO_BARS: &[u8] = b"**kern\n*M4/4\n*MM120\n=1\n1c\n=2\n1d\n==\n*-\n";

/// The score of the four quarters in a bar that is twice as long.
const EIGHTHS: &[u8] = b"**kern\n*M4/4\n*MM120\n=1\n8c\n8d\n8e\n8f\n2r\n==\n*-\n";

/// The best of the ticks.
fn fitted<R: Threads + Sync>(
    rt: &R,
    alloc: Global,
    session: &mut Session,
    among: Candidates,
    builds: &mut Builds<InTests>,
) -> Result<Fitted, FitFault>
    requires order { among.low ≤ among.high }
    requires high { among.high ≤ LATEST_TICK }
    requires step { 1 ≤ among.step }
    requires few { (among.high - among.low) / among.step < MOST_CANDIDATES }
{
    let mut products = Products::<InTests>::zero();
    let means = Means {
        rt,
        alloc,
        gate: &OpenGate,
    };
    best_barline(&means, session, among, builds, &mut products)
}

/// The line between the two notes costs least where the second one begins. The session is afterwards as it was.
#[test]
fn the_best_tick_is_told(rt: HostRuntime) -> Result<(), Fail> {
    let alloc = rt.alloc();
    let Some(mut session) = opened(&rt, alloc, EARLY_NOTE) else {
        return Err(AllocError)?;
    };
    let among = Candidates {
        bar: 1,
        low: 1880,
        high: 1920,
        step: 20,
    };
    let mut builds = Builds::<InTests>::zero();
    let best = fitted(&rt, alloc, &mut session, among, &mut builds);
    assert_eq!(rt;
        best,
        Ok(Fitted {
            tick: 1900,
            cost: 20
        })
    );
    assert!(rt; among.count() == 3 && builds.count() == 4);
    assert!(rt; session.cost() == 60 && has_score(alloc, &session, TWO_BARS));
    Ok(())
}

#[test]
fn a_fit_has_its_faults(rt: HostRuntime) -> Result<(), Fail> {
    let alloc = rt.alloc();
    let Some(mut session) = opened(&rt, alloc, EARLY_NOTE) else {
        return Err(AllocError)?;
    };
    let at_the_start = Candidates {
        bar: 1,
        low: 0,
        high: 0,
        step: 1,
    };
    let after_the_last = Candidates {
        bar: 3,
        low: 1,
        high: 1,
        step: 1,
    };
    let mut builds = Builds::<InTests>::zero();
    let none = fitted(&rt, alloc, &mut session, at_the_start, &mut builds);
    assert_eq!(rt; none, Err(FitFault::NoCandidate));
    let no_bar = fitted(&rt, alloc, &mut session, after_the_last, &mut builds);
    assert_eq!(rt; no_bar, Err(FitFault::NoBar(3)));
    assert!(rt; builds.count() == 0 && session.cost() == 60);
    Ok(())
}

#[test]
fn the_best_tick_is_set_at_its_cost(rt: HostRuntime) -> Result<(), Fail> {
    let alloc = rt.alloc();
    let Some(mut session) = opened(&rt, alloc, FOUR_QUARTERS) else {
        return Err(AllocError)?;
    };
    let among = Candidates {
        bar: 1,
        low: 3800,
        high: 3840,
        step: 40,
    };
    let mut builds = Builds::<InTests>::zero();
    let mut products = Products::<InTests>::zero();
    let best = fitted(&rt, alloc, &mut session, among, &mut builds);
    assert_eq!(rt;
        best,
        Ok(Fitted {
            tick: 3840,
            cost: 170
        })
    );
    assert!(rt; session.cost() == 100 && has_score(alloc, &session, QUARTERS));
    let made = edit(
        &rt,
        alloc,
        &mut session,
        "barline 1 3840",
        &mut builds,
        &mut products,
    )?;
    assert!(rt; made.cost == 170 && builds.count() == 3);
    assert!(rt; has_score(alloc, &session, EIGHTHS));
    Ok(())
}
