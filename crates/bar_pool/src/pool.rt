ghost use Rattle.bar_pool.specs.Costs.{AreAllCosts};
ghost use Rattle.bar_pool.specs.Orders.{AreInUnits};
ghost use Rattle.bar_pool.specs.Pool.{AreTablesOf, RisesWithin};
ghost use Rattle.bar_pool.specs.Sources.{counted_from};
ghost use Rattle.grammar_plan.specs.Plans.{IsPlan};
ghost use Rattle.rhythm_base.specs.Counter.{risen};
ghost use Rattle.rhythm_base.specs.Lists.{Each};
ghost use Rattle.rhythm_base.specs.Readable.{IsReadable};
ghost use Rattle.std.specs.Prelude.{◌≡◌, ◌<◌, ◌≤◌, All, IfOk, OnOk, length};

use crate::job::Job;
use crate::limits::LEAST_FOR_A_WORKER;
use crate::order::{CostOrder, Order};
use crate::rooms::Rooms;
use crate::search::build_in_turn;
use crate::sources::Sources;
use crate::spread::spread;
use crate::workers::build_by_workers;
use least_cost::{BarCosts, BarTable, Steps};
use rhythm_base::Tag;
use rhythm_ports::{Gate, Means};
use std::alloc::{AllocError, Global};
use std::thread::Threads;

/// The table of each input, in the order of the inputs. An input that is equal to one before it takes over its table, and all
/// others are searched, among them all bars without an onset and a pin, whose search takes hardly anything. Before a cell
/// is built, the gate is passed with the number of its input: before a search by its worker, and before a table is taken
/// over by the calling thread, when all searches are done.
///
/// There are `workers` of them, at least one, but no more than have eight inputs each to search, and each draws the input
/// that it searches next. One worker is the calling thread, which takes the inputs in turn. With no inputs there is nothing to
/// draw. All workers read the one plan, and each has a room of its own.
pub fn build_cells<R: Threads + Sync, G: Gate + Sync, B: Tag>(
    means: &Means<'_, R, G>,
    order: &Order<'_>,
    workers: u32,
    rooms: &mut Rooms,
    builds: &mut Steps<B>,
) -> Result<Vec<BarTable>, AllocError>
    requires readable { IsReadable order.now.grammar.now }
    requires plan { IsPlan order.now.grammar.now order.now.plan.now }
    requires units { All (λ k. k.resolution ≡ order.now.grammar.now.resolution) order.now.inputs.now }
    ensures tables { IfOk result (λ v. AreTablesOf order.now.grammar.now order.now.inputs.now v.items) }
    ensures builds { OnOk result (builds.new ≡ risen builds.old (length order.now.inputs.now)) }
    ensures most { RisesWithin builds.old builds.new (length order.now.inputs.now) }
{
    if order.inputs.is_empty() {
        return Ok(Vec::new(means.alloc));
    }
    let sources = Sources::of(means.alloc, order.inputs)?;
    let searched = sources.searched.as_slice();
    let found = build_all_searched(means, order, searched, workers as usize, rooms, builds)?;
    spread(means, order, sources.equals.as_slice(), found, builds)
}

/// What the least trees of each cell cost, for the numbers carried in that are asked for, in the order of the cells. Each cell is
/// searched, also where another is equal to it, by workers and with the gate as for tables.
pub fn build_all_costs<R: Threads + Sync, G: Gate + Sync, B: Tag>(
    means: &Means<'_, R, G>,
    order: &CostOrder<'_>,
    workers: u32,
    rooms: &mut Rooms,
    builds: &mut Steps<B>,
) -> Result<Vec<BarCosts>, AllocError>
    requires readable { IsReadable order.now.grammar.now }
    requires plan { IsPlan order.now.grammar.now order.now.plan.now }
    requires units { AreInUnits order.now }
    ensures costs { IfOk result (λ v. AreAllCosts order.now.grammar.now order.now.cells.now v.items) }
    ensures builds { OnOk result (builds.new ≡ risen builds.old (length order.now.cells.now)) }
    ensures most { RisesWithin builds.old builds.new (length order.now.cells.now) }
{
    let numbers = numbers_below(means.alloc, order.cells.len())?;
    let all = numbers.as_slice();
    build_all_searched(means, order, all, workers as usize, rooms, builds)
}

/// The numbers below this one.
fn numbers_below(alloc: Global, count: usize) -> Result<Vec<usize>, AllocError>
    ensures { IfOk result (λ v. v.items ≡ counted_from 0 count) }
{
    let mut numbers = Vec::with_capacity(alloc, count)?;
    'numbers: for number in 0..count {
        numbers.push(number)?;
    }
    Ok(numbers)
}

/// Builds what the job has for these numbers, by one worker or by several.
fn build_all_searched<R: Threads + Sync, G: Gate + Sync, B: Tag, T: Drop + Send, J: Job<T> + Sync>(
    means: &Means<'_, R, G>,
    job: &J,
    searched: &[usize],
    workers: usize,
    rooms: &mut Rooms,
    builds: &mut Steps<B>,
) -> Result<Vec<T>, AllocError>
    requires ready { J.ready job.now }
    requires within { All (λ n. n < J.count job.now) searched.now }
    ensures things { IfOk result (λ v. Each (J.built job.now) searched.now v.items) }
    ensures builds { OnOk result (builds.new ≡ risen builds.old (length searched.now)) }
    ensures most { RisesWithin builds.old builds.new (length searched.now) }
{
    let workers = workers.min(searched.len() / LEAST_FOR_A_WORKER).max(1);
    let rooms = rooms.for_workers(means.alloc, workers)?;
    if workers == 1 {
        return build_in_turn(means, job, searched, &mut rooms[0], builds);
    }
    build_by_workers(means, job, searched, workers as u64, rooms, builds)
}
