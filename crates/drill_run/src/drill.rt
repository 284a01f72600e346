ghost use Rattle.drill_run.specs.Drill.{IsReadyForDrill};
ghost use Rattle.drill_run.specs.Ends.{OnTooLong};
ghost use Rattle.drill_run.specs.Stands.{
  HasBrokenOff,
  HasBrokenOffOn,
  HasDrilledAll,
  HasSaid,
  HasStepped,
  HasStoppedAt,
};
ghost use Rattle.drill_run.specs.declared.drill_stop.DrillStop.TheVariants as stop;
ghost use Rattle.edit_session.specs.Products.{RisesOnOk};
ghost use Rattle.rhythm_base.specs.Performance.{IsWellFormed};
ghost use Rattle.rhythm_gen.specs.DrillEdit.{IsReadyForEdit};
ghost use Rattle.std.specs.Prelude.{◌≡◌, ◌+◌, ◌*◌, ◌≤◌, Err, IfOk, Ok, OnErr, OnOk};

use crate::drill_stop::DrillStop;
use crate::summary::summary_of;
use carry_matrix::Steps as Products;
use edit_session::Session;
use least_cost::Steps as Builds;
use rhythm_base::{EditFault, Tag};
use rhythm_gen::{PieceNumber, drill_edit};
use rhythm_ports::{Gate, Means};
use std::alloc::AllocError;
use std::thread::Threads;

/// The number of edits of a drill.
pub const DRILL_EDITS: u32 = 40;

/// A drill so far: its number, the session as edited, how many edits were accepted, and how many cells these reached.
#[derive(Drop)]
struct Drill {
    number: PieceNumber,
    session: Session,
    accepted: u32,
    built: u64,
}

impl Drill {
    /// Makes the edit of this index, or passes it over where it is refused.
    fn step<R: Threads + Sync, G: Gate + Sync, B: Tag, P: Tag>(
        &mut self,
        means: &Means<'_, R, G>,
        index: u32,
        builds: &mut Builds<B>,
        products: &mut Products<P>,
    ) -> Result<(), AllocError>
        requires ready { IsReadyForEdit index self.old.session.performance }
        requires accepted { self.old.accepted ≤ index }
        requires built { self.old.built ≤ 65536 * index }
        ensures formed { IsWellFormed self.old.session.performance }
        ensures grammar { self.new.session.grammar ≡ self.old.session.grammar }
        ensures number { self.new.number ≡ self.old.number }
        ensures step { OnOk result (HasStepped self.old index self.new builds.old builds.new) }
        ensures accepted { OnOk result (self.new.accepted ≤ index + 1) }
        ensures built { OnOk result (self.new.built ≤ 65536 * (index + 1)) }
        ensures stopped { OnErr result (HasStoppedAt self.old index builds.old builds.new) }
        ensures products { RisesOnOk result products.old products.new }
    {
        let edit = drill_edit(self.number.number(), index, self.session.performance());
        match self.session.apply(means, &edit, builds, products) {
            Ok(applied) => {
                self.accepted += 1;
                self.built += applied.built;
                Ok(())
            }
            Err(fault) => match fault {
                EditFault::Memory => Err(AllocError),
                _ => Ok(()),
            },
        }
    }

    /// Makes all edits, one after another.
    fn make_edits<R: Threads + Sync, G: Gate + Sync, B: Tag, P: Tag>(
        &mut self,
        means: &Means<'_, R, G>,
        builds: &mut Builds<B>,
        products: &mut Products<P>,
    ) -> Result<(), AllocError>
        requires ready { IsReadyForDrill self.old.session.performance }
        requires accepted { self.old.accepted ≡ 0 }
        requires built { self.old.built ≡ 0 }
        ensures grammar { self.new.session.grammar ≡ self.old.session.grammar }
        ensures drilled { OnOk result (HasDrilledAll self.old self.new builds.old builds.new) }
        ensures broken_off { OnErr result (HasBrokenOff self.old builds.old builds.new) }
        ensures products { products.old ≤ products.new }
    {
        'edits: for index in 0..DRILL_EDITS {
            self.step(means, index, builds, products)?;
        }
        Ok(())
    }
}

/// Runs the drill of a number on a session: makes its forty edits, one after another, and passes over those that are refused. What
/// it came to is said in six lines. Want of memory ends it.
pub fn run_drill<R: Threads + Sync, G: Gate + Sync, B: Tag, P: Tag>(
    means: &Means<'_, R, G>,
    session: Session,
    number: PieceNumber,
    builds: &mut Builds<B>,
    products: &mut Products<P>,
) -> Result<Vec<u8>, DrillStop>
    requires { IsReadyForDrill session.performance }
    ensures summary { IfOk result (λ text. HasSaid session number (Ok text.items) builds.old builds.new) }
    ensures too_long { OnTooLong result (λ line. HasSaid session number (Err line) builds.old builds.new) }
    ensures memory { result ≡ Err stop.Memory → HasBrokenOffOn session number builds.old builds.new }
    ensures products { products.old ≤ products.new }
{
    let mut drill = Drill {
        number,
        session,
        accepted: 0,
        built: 0,
    };
    match drill.make_edits(means, builds, products) {
        Ok(()) => summary_of(means.alloc, &drill.session, drill.accepted, drill.built),
        Err(_error) => Err(DrillStop::Memory),
    }
}
