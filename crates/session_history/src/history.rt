ghost use Rattle.rhythm_base.specs.Counter.{risen};
ghost use Rattle.rhythm_base.specs.EditRanges.{IsEditInRange};
ghost use Rattle.session_history.specs.Changes.{IsHistory, IsRedone, IsUndone};
ghost use Rattle.session_history.specs.Effects.{
  HasBuiltForNoStep,
  HasMultipliedForEdit,
  HasMultipliedOnce,
  IsStepMade,
  IsStepRefused,
  IsStepAnswer,
};
ghost use Rattle.session_history.specs.History.{begun_with};
ghost use Rattle.std.specs.Prelude.{◌≡◌, [], IfErr, IfOk, OnErr, OnOk};

use crate::steps::Steps;
use carry_matrix::Steps as Products;
use edit_session::{Applied, Session};
use least_cost::Steps as Builds;
use rhythm_base::{Edit, EditFault, Tag};
use rhythm_ports::{Gate, Means};
use std::alloc::Global;
use std::marker::Model;
use std::thread::Threads;

/// A session, the steps back from it and the steps forward: at most 64 of them. The steps back reach at most 16,384 cells together.
#[derive(Drop)]
pub struct History {
    session: Session,
    past: Steps,
    future: Steps,
}

impl Model for History {
    ghost use Rattle.rhythm_base.specs.PerformanceCode.{performance_code};
    ghost use Rattle.session_history.specs.History.{History};
    ghost use Rattle.session_history.specs.HistoryCode.{step_code};
    ghost use Rattle.session_history.specs.Steps.{next_of, step_of};
    ghost use Rattle.session_history.specs.Ways.{KeepsWays};
    ghost use Rattle.std.specs.Coded.{codes};
    ghost use Rattle.std.specs.Prelude.{map};

    ghost Value = { History };

    ghost coded = { Prim.hlevel (codes, performance_code, step_code) };

    ghost view = { λ h. record {
      grammar = h.session.grammar;
      past = map step_of h.past;
      present = h.session.performance;
      future = map next_of h.future;
    } };

    ghost invariant = { λ h. KeepsWays h.session h.past h.future };
}

/// There was not enough memory for a history. The session is handed back.
#[derive(Drop)]
pub struct NoHistory {
    pub session: Session,
}

/// There is no step that way.
#[derive(Clone, Copy, Debug, PartialEq, Eq)]
pub struct NoStep;

impl History {
    /// A history without steps. The memory for the places of all steps is taken here.
    pub fn new(alloc: Global, session: Session) -> Result<History, NoHistory>
        ensures history { IfOk result (λ h. h ≡ begun_with session.grammar session.performance) }
        ensures session { IfErr result (λ e. e.session ≡ session) }
    {
        // Its clauses tell that each voice of the performance has a derivation, which a history keeps of all its performances.
        let _present = session.performance();
        let Ok(past) = Steps::new(alloc) else {
            return Err(NoHistory { session });
        };
        match Steps::new(alloc) {
            Ok(future) => Ok(History {
                session,
                past,
                future,
            }),
            Err(_error) => Err(NoHistory { session }),
        }
    }

    /// The session on the performance as edited so far.
    pub fn session(&self) -> &Session
        ensures grammar { result.now.grammar ≡ self.now.grammar }
        ensures performance { result.now.performance ≡ self.now.present }
        ensures history { IsHistory self.now }
    {
        &self.session
    }

    /// Makes an edit, which becomes the last step, or says why it is refused, as `Session::apply` does. All memory is taken before anything
    /// changes, and after each refusal all is as before, the steps forward too.
    pub fn apply<R: Threads + Sync, G: Gate + Sync, B: Tag, P: Tag>(
        &mut self,
        means: &Means<'_, R, G>,
        edit: &Edit,
        builds: &mut Builds<B>,
        products: &mut Products<P>,
    ) -> Result<Applied, EditFault>
        requires { IsEditInRange edit.now }
        ensures made { IfOk result (IsStepMade self.old edit.now self.new) }
        ensures refused { IfErr result (IsStepRefused self.old edit.now self.new) }
        ensures builds { IfOk result (λ a. builds.new ≡ risen builds.old a.built) }
        ensures built { IfErr result (HasBuiltForNoStep self.old edit.now builds.old builds.new) }
        ensures products { HasMultipliedForEdit self.old edit.now result products.old products.new }
    {
        match self.session.make_edit(means, edit, builds, products) {
            Ok(made) => {
                self.future.clear();
                self.past.put_last(made.back);
                Ok(made.applied)
            }
            Err(fault) => Err(fault),
        }
    }

    /// Takes the last edit back. It builds no cell and takes no memory.
    pub fn undo<P: Tag>(&mut self, products: &mut Products<P>) -> Result<Applied, NoStep>
        ensures undone { OnOk result (IsUndone self.old self.new) }
        ensures told { IfOk result (IsStepAnswer self.new) }
        ensures none { OnErr result (self.old.past ≡ []) }
        ensures unchanged { OnErr result (self.new ≡ self.old) }
        ensures products { OnOk result (HasMultipliedOnce self.old self.new products.old products.new) }
        ensures idle { OnErr result (products.new ≡ products.old) }
    {
        match self.past.take_last() {
            None => Err(NoStep),
            Some(step) => {
                let committed = self.session.take_back(step, products);
                self.future.put_first(committed.back);
                Ok(Applied {
                    built: 0,
                    cost: committed.applied.cost,
                })
            }
        }
    }

    /// Makes the next edit again that was taken back. It builds no cell and takes no memory.
    pub fn redo<P: Tag>(&mut self, products: &mut Products<P>) -> Result<Applied, NoStep>
        ensures redone { OnOk result (IsRedone self.old self.new) }
        ensures told { IfOk result (IsStepAnswer self.new) }
        ensures none { OnErr result (self.old.future ≡ []) }
        ensures unchanged { OnErr result (self.new ≡ self.old) }
        ensures products { OnOk result (HasMultipliedOnce self.old self.new products.old products.new) }
        ensures idle { OnErr result (products.new ≡ products.old) }
    {
        match self.future.take_first() {
            None => Err(NoStep),
            Some(step) => {
                let committed = self.session.take_back(step, products);
                self.past.put_after(committed.back);
                Ok(Applied {
                    built: 0,
                    cost: committed.applied.cost,
                })
            }
        }
    }
}
