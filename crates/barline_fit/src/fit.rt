ghost use Rattle.barline_fit.specs.Tries.{HasBuiltToFit, IsFaultAmong, IsFittedAmong};
ghost use Rattle.barline_fit.specs.declared.candidates.TheConstants.{MOST_CANDIDATES};
ghost use Rattle.rhythm_base.specs.declared.limits.TheConstants.{LATEST_TICK};
ghost use Rattle.std.specs.Prelude.{◌≡◌, ◌≤◌, ◌<◌, ◌-◌, ◌/◌, IfErr, IfOk};

use crate::candidates::{Candidate, Candidates};
use crate::fit_fault::FitFault;
use crate::fitted::{Fitted, better};
use crate::trying::cost_at;
use carry_matrix::Steps as Products;
use edit_session::Session;
use least_cost::Steps as Builds;
use rhythm_base::Tag;
use rhythm_ports::{Gate, Means};
use std::thread::Threads;

/// The tick of least cost among the candidates for one barline, and at equal cost the least. The barline is set to each of them, by
/// the edit that a script has for it, and then taken back: the session is as before after every answer.
pub fn best_barline<R: Threads + Sync, G: Gate + Sync, B: Tag, P: Tag>(
    means: &Means<'_, R, G>,
    session: &mut Session,
    among: Candidates,
    builds: &mut Builds<B>,
    products: &mut Products<P>,
) -> Result<Fitted, FitFault>
    requires order { among.low ≤ among.high }
    requires high { among.high ≤ LATEST_TICK }
    requires step { 1 ≤ among.step }
    requires few { (among.high - among.low) / among.step < MOST_CANDIDATES }
    ensures fitted { IfOk result (IsFittedAmong session.old among) }
    ensures fault { IfErr result (IsFaultAmong session.old among) }
    ensures same { session.new ≡ session.old }
    ensures builds { HasBuiltToFit session.old among result builds.old builds.new }
    ensures products { products.old ≤ products.new }
{
    let bars = session.performance().bars().len();
    if among.bar == 0 || bars < among.bar as usize {
        return Err(FitFault::NoBar(among.bar));
    }
    let mut best: Option<Fitted> = None;
    'ticks: for number in 0..among.count() {
        let tick = among.low + number * among.step;
        let candidate = Candidate {
            bar: among.bar,
            tick,
        };
        if let Some(cost) = cost_at(means, session, candidate, builds, products)? {
            best = Some(better(best, Fitted { tick, cost }));
        }
    }
    best.ok_or(FitFault::NoCandidate)
}
