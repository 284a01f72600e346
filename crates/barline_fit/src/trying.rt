ghost use Rattle.barline_fit.specs.Tries.{HasReached, HasReachedSome, IsAllowed, IsCostAt};
ghost use Rattle.edit_session.specs.Effects.{AllLive};
ghost use Rattle.edit_session.specs.Products.{RisesOnOk};
ghost use Rattle.rhythm_base.specs.EditRanges.{IsEditInRange};
ghost use Rattle.rhythm_base.specs.Performance.{IsWellFormed};
ghost use Rattle.rhythm_base.specs.declared.edit.Edit.TheVariants.{Barline};
ghost use Rattle.std.specs.Prelude.{◌≡◌, ◌≤◌, IfOk, OnErr, OnOk, length};

use crate::candidates::Candidate;
use carry_matrix::Steps as Products;
use edit_session::Session;
use least_cost::Steps as Builds;
use rhythm_base::{Edit, EditFault, Tag};
use rhythm_ports::{Gate, Means};
use std::alloc::AllocError;
use std::thread::Threads;

/// What the performance costs with a barline at a tick, or nothing where the edit that sets it is refused. The session is as before.
pub fn cost_at<R: Threads + Sync, G: Gate + Sync, B: Tag, P: Tag>(
    means: &Means<'_, R, G>,
    session: &mut Session,
    candidate: Candidate,
    builds: &mut Builds<B>,
    products: &mut Products<P>,
) -> Result<Option<u64>, AllocError>
    requires range { IsEditInRange (Barline candidate.bar candidate.tick) }
    requires formed { IsWellFormed session.old.performance }
    requires derivations { AllLive session.old.grammar session.old.performance }
    requires room { length session.old.performance.bars ≤ session.old.room }
    ensures cost { IfOk result (IsCostAt session.old candidate) }
    ensures memory { OnErr result (IsAllowed session.old candidate) }
    ensures same { session.new ≡ session.old }
    ensures builds { OnOk result (HasReached session.old candidate builds.old builds.new) }
    ensures most { HasReachedSome session.old candidate builds.old builds.new }
    ensures products { RisesOnOk result products.old products.new }
{
    let edit = Edit::Barline {
        bar: candidate.bar,
        tick: candidate.tick,
    };
    match session.make_edit(means, &edit, builds, products) {
        Ok(made) => {
            let cost = made.applied.cost;
            let _back = session.take_back(made.back, products);
            Ok(Some(cost))
        }
        Err(fault) => match fault {
            EditFault::Memory => Err(AllocError),
            _ => Ok(None),
        },
    }
}
