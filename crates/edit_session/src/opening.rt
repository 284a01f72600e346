ghost use Rattle.edit_session.specs.Inputs.{AreCellTables};
ghost use Rattle.edit_session.specs.Opening.{IsBuilt, IsOpenFault, cells_of};
ghost use Rattle.edit_session.specs.declared.open_fault.OpenFault.TheVariants.{Cells};
ghost use Rattle.grammar_plan.specs.Plans.{IsPlan};
ghost use Rattle.rhythm_base.specs.Counter.{risen};
ghost use Rattle.rhythm_base.specs.Performance.{IsWellFormed};
ghost use Rattle.rhythm_base.specs.Readable.{IsReadable};
ghost use Rattle.rhythm_base.specs.Voices.{HasStarts};
ghost use Rattle.rhythm_base.specs.declared.limits.TheConstants.{MOST_CELLS};
ghost use Rattle.std.specs.Prelude.{◌≡◌, ◌≤◌, ◌<◌, IfErr, IfOk, OnOk};

use crate::inputs::cell_inputs;
use crate::open_fault::OpenFault;
use bar_pool::{Order, Rooms, build_cells};
use grammar_plan::Plan;
use least_cost::{BarTable, Steps};
use rhythm_base::{Grammar, MOST_CELLS, Performance, Tag};
use rhythm_ports::{Gate, Means};
use std::thread::Threads;

/// Whether there are few enough cells.
fn check_cells(performance: &Performance) -> Result<(), OpenFault>
    ensures formed { IsWellFormed performance.now }
    ensures few { IfOk result (λ _. cells_of performance.now ≤ MOST_CELLS) }
    ensures fault { IfErr result (λ fault. (fault ≡ Cells (cells_of performance.now)) × (MOST_CELLS < cells_of performance.now)) }
{
    let bars = performance.bars().len() as u64;
    let count = performance.channels().len() as u64 * bars;
    if count > u64::from(MOST_CELLS) {
        return Err(OpenFault::Cells { count });
    }
    Ok(())
}

/// The plan of a grammar, and by it the table of each cell, voice after voice and bar after bar.
#[derive(Drop)]
pub struct PlannedTables {
    pub plan: Plan,
    pub tables: Vec<BarTable>,
}

/// The plan and the tables of the cells: each table is built once, and none where there are too many cells or where a root symbol
/// is wanting.
pub fn cell_tables<R: Threads + Sync, G: Gate + Sync, B: Tag>(
    means: &Means<'_, R, G>,
    grammar: &Grammar,
    performance: &Performance,
    workers: u32,
    builds: &mut Steps<B>,
) -> Result<PlannedTables, OpenFault>
    requires readable { IsReadable grammar.now }
    ensures formed { IsWellFormed performance.now }
    ensures few { IfOk result (λ _. cells_of performance.now ≤ MOST_CELLS) }
    ensures starts { IfOk result (λ _. HasStarts grammar.now performance.now.bars) }
    ensures plan { IfOk result (λ opening. IsPlan grammar.now opening.plan) }
    ensures tables { IfOk result (λ opening. AreCellTables grammar.now performance.now opening.tables.items) }
    ensures fault { IfErr result (IsOpenFault grammar.now performance.now) }
    ensures builds { OnOk result (builds.new ≡ risen builds.old (cells_of performance.now)) }
    ensures built { IfErr result (IsBuilt builds.old builds.new (cells_of performance.now)) }
{
    check_cells(performance)?;
    let inputs = cell_inputs(means.alloc, grammar, performance)?;
    let plan = Plan::of(means.alloc, grammar)?;
    let order = Order {
        grammar,
        plan: &plan,
        inputs: inputs.as_slice(),
    };
    let mut rooms = Rooms::new(means.alloc);
    let tables = build_cells(means, &order, workers, &mut rooms, builds)?;
    Ok(PlannedTables { plan, tables })
}
