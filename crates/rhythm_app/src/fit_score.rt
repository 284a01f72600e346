ghost use Rattle.barline_fit.specs.Tries.{CanBeSet, HasReached, HasReachedSome};
ghost use Rattle.kern_writer.specs.declared.fault.ScoreFault.TheVariants.{Memory, TooLong};
ghost use Rattle.rhythm_app.specs.FittedScore.{IsScoreAt};
ghost use Rattle.std.specs.Prelude.{◌≡◌, ◌≢◌, ◌≤◌, ℕ, Err, IfOk, Ok};

use barline_fit::Candidate;
use carry_matrix::Steps as Products;
use edit_session::Session;
use least_cost::Steps as Builds;
use rhythm_base::{Edit, EditFault, Tag};
use rhythm_ports::{Gate, Means};
use session_text::{KernText, ScoreFault};
use std::thread::Threads;

/// The **kern text of the least derivations with the barline at a tick where it can be set, as at a fitted one. The session is as before
/// after every answer. The cells that the edit reaches are built for it.
pub fn fitted_score<R: Threads + Sync, G: Gate + Sync, B: Tag, P: Tag>(
    means: &Means<'_, R, G>,
    session: &mut Session,
    candidate: Candidate,
    builds: &mut Builds<B>,
    products: &mut Products<P>,
) -> Result<Vec<u8>, ScoreFault>
    requires accepted { CanBeSet session.old candidate }
    ensures text { IfOk result (λ v. IsScoreAt session.old candidate (Ok v.items)) }
    ensures too_long { (line : ℕ) → result ≡ Err (TooLong line) → IsScoreAt session.old candidate (Err line) }
    ensures same { session.new ≡ session.old }
    ensures builds { result ≢ Err Memory → HasReached session.old candidate builds.old builds.new }
    ensures most { HasReachedSome session.old candidate builds.old builds.new }
    ensures products { products.old ≤ products.new }
{
    // What this says of the performance shows that the barline is in range, and that the session can be put back.
    let _before = session.performance();
    let edit = Edit::Barline {
        bar: candidate.bar,
        tick: candidate.tick,
    };
    match session.make_edit(means, &edit, builds, products) {
        Ok(made) => {
            let score = session.score(means.alloc);
            let _back = session.take_back(made.back, products);
            score
        }
        Err(fault) => match fault {
            EditFault::Memory => Err(ScoreFault::Memory),
            _ => unreachable!(),
        },
    }
}
