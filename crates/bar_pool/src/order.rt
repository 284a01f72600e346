use crate::job::Job;
use grammar_plan::Plan;
use least_cost::{BarCosts, BarTable, Leave, build_costs, build_table};
use least_rows::Room;
use rhythm_base::{BarInput, Grammar};
use std::alloc::{AllocError, Global};

/// The cells that are to be built by a grammar.
#[derive(Clone, Copy)]
pub struct Order<'a> {
    pub grammar: &'a Grammar,
    /// The plan of the grammar.
    pub plan: &'a Plan,
    pub inputs: &'a [BarInput],
}

impl<'a> Job<BarTable> for Order<'a> {
    ghost use Rattle.bar_pool.specs.Orders.{IsOrder};
    ghost use Rattle.bar_pool.specs.Sources.{IsTableAt};
    ghost use Rattle.std.specs.Prelude.{length};

    ghost count = { λ o. length o.inputs.now };

    ghost ready = { λ o. IsOrder o.grammar.now o.plan.now (λ k. k) o.inputs.now };

    ghost built = { λ o. IsTableAt o.grammar.now o.inputs.now };

    #[inline(always)]
    fn build(
        &self,
        leave: Leave,
        alloc: Global,
        number: usize,
        room: &mut Room,
    ) -> Result<BarTable, AllocError> {
        let input = &self.inputs[number];
        build_table(leave, alloc, self.grammar, self.plan, room, input)
    }
}

/// A cell of which the costs are asked for, by the numbers of chords carried in.
#[derive(Drop)]
pub struct AskedCell {
    pub input: BarInput,
    pub asked: [bool; 5],
}

/// The cells whose costs are to be built by a grammar.
#[derive(Clone, Copy)]
pub struct CostOrder<'a> {
    pub grammar: &'a Grammar,
    /// The plan of the grammar.
    pub plan: &'a Plan,
    pub cells: &'a [AskedCell],
}

impl<'a> Job<BarCosts> for CostOrder<'a> {
    ghost use Rattle.bar_pool.specs.Costs.{AreCostsAt};
    ghost use Rattle.bar_pool.specs.Orders.{IsOrder};
    ghost use Rattle.std.specs.Prelude.{length};

    ghost count = { λ o. length o.cells.now };

    ghost ready = { λ o. IsOrder o.grammar.now o.plan.now (λ c. c.input) o.cells.now };

    ghost built = { λ o. AreCostsAt o.grammar.now o.cells.now };

    fn build(
        &self,
        leave: Leave,
        alloc: Global,
        number: usize,
        room: &mut Room,
    ) -> Result<BarCosts, AllocError> {
        let cell = &self.cells[number];
        let input = &cell.input;
        build_costs(
            leave,
            alloc,
            self.grammar,
            self.plan,
            room,
            input,
            cell.asked,
        )
    }
}
