ghost use Rattle.session_history.specs.Steps.{kept_of, tables_of};
ghost use Rattle.std.specs.Map.Iter.{TakesFirst, TakesLast};
ghost use Rattle.std.specs.Prelude.{◌≡◌, ◌≤◌, ◌<◌, ℕ, [], ◌∷◌, ◌++◌, IfOk, MatchBool, drop, length};

use circular_buffer::HeapCircularBuffer;
use edit_session::Prepared;
use std::alloc::{AllocError, Global};
use std::marker::Model;

/// The most steps that a history keeps.
pub const MOST_STEPS: usize = 64;

/// The most cells that the steps back reach together, each of which has a table.
pub const MOST_KEPT_CELLS: u64 = 16_384;

/// Steps in a row. The memory for their places is taken once.
#[derive(Drop)]
pub(crate) struct Steps {
    ring: HeapCircularBuffer<Prepared>,
}

impl Model for Steps {
    ghost use Rattle.edit_session.specs.Prepared.{Prepared};
    ghost use Rattle.edit_session.specs.PreparedCode.{cell_table_code};
    ghost use Rattle.rhythm_base.specs.PerformanceCode.{performance_code};
    ghost use Rattle.session_history.specs.declared.steps.TheConstants.{MOST_STEPS};
    ghost use Rattle.std.specs.Coded.{codes};
    ghost use Rattle.std.specs.Prelude.{◌≡◌, List};

    ghost Value = { List Prepared };

    ghost coded = { Prim.hlevel (codes, performance_code, cell_table_code) };

    ghost view = { λ s. s.ring.items };

    ghost invariant = { λ s. s.ring.capacity ≡ MOST_STEPS };
}

impl Steps {
    /// No steps.
    pub(crate) fn new(alloc: Global) -> Result<Steps, AllocError>
        ensures { IfOk result (λ s. s ≡ []) }
    {
        let ring = HeapCircularBuffer::with_capacity(alloc, MOST_STEPS)?;
        Ok(Steps { ring })
    }

    /// Whether they have more tables than are kept.
    fn has_many_tables(&self) -> bool
        ensures { MatchBool result (MOST_KEPT_CELLS < tables_of self.now) (tables_of self.now ≤ MOST_KEPT_CELLS) }
    {
        let mut sum = 0u64;
        'steps: for step in self.ring.iter() {
            let size = step.tables();
            if size > MOST_KEPT_CELLS - sum {
                return true;
            }
            sum += size;
        }
        false
    }

    /// Lets go of the first steps, until they have no more tables than are kept.
    #[tactic(auto, using(crate::proofs::Keeping::kept_all, crate::proofs::Keeping::cut_on))]
    fn cut(&mut self)
        requires { length self.old ≤ MOST_STEPS }
        ensures kept { kept_of self.old ≡ self.new }
        ensures rest { (n : ℕ) × (self.new ≡ drop n self.old) }
    {
        'steps: while self.has_many_tables() {
            self.ring.pop_front();
        }
    }

    /// Puts a step after the others, and lets go of the first ones, where there are too many of them, or of their tables.
    #[tactic(auto, using(crate::proofs::Keeping::kept_last))]
    pub(crate) fn put_last(&mut self, step: Prepared)
        ensures kept { self.new ≡ kept_of (self.old ++ step ∷ []) }
        ensures rest { (n : ℕ) × (self.new ≡ drop n (self.old ++ step ∷ [])) }
        ensures few { length self.new ≤ MOST_STEPS }
    {
        self.ring.push_back(step);
        self.cut();
    }

    /// Puts a step after the others.
    pub(crate) fn put_after(&mut self, step: Prepared)
        requires { length self.old < MOST_STEPS }
        ensures { self.new ≡ self.old ++ step ∷ [] }
    {
        self.ring.push_back(step);
    }

    /// Puts a step before the others.
    pub(crate) fn put_first(&mut self, step: Prepared)
        requires { length self.old < MOST_STEPS }
        ensures { self.new ≡ step ∷ self.old }
    {
        self.ring.push_front(step);
    }

    /// Takes the last step out.
    #[tactic(auto, using(crate::proofs::Ends::last_taken))]
    pub(crate) fn take_last(&mut self) -> Option<Prepared>
        ensures { TakesLast (λ x. x) self.old result self.new }
    {
        self.ring.pop_back()
    }

    /// Takes the first step out.
    #[tactic(auto, using(crate::proofs::Ends::first_taken))]
    pub(crate) fn take_first(&mut self) -> Option<Prepared>
        ensures { TakesFirst (λ x. x) self.old result self.new }
    {
        self.ring.pop_front()
    }

    /// Lets go of all steps.
    pub(crate) fn clear(&mut self)
        ensures { self.new ≡ [] }
    {
        self.ring.clear();
    }
}
