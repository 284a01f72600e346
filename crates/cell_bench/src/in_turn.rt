ghost use Rattle.rhythm_base.specs.Readable.{IsReadable};
ghost use Rattle.std.specs.Prelude.{◌≡◌};

use crate::Benchmark;
use grammar_plan::Plan;
use least_cost::{BarTable, Steps, build_planned};
use least_rows::Room;
use rhythm_base::{BarInput, Grammar};
use std::alloc::{AllocError, Global};

/// Builds the table so often, one after another by one plan of the grammar and in one room, and keeps the last.
pub fn build_in_turn(
    alloc: Global,
    grammar: &Grammar,
    bar: &BarInput,
    times: u32,
) -> Result<Option<BarTable>, AllocError>
    requires readable { IsReadable grammar.now }
    requires units { bar.now.resolution ≡ grammar.now.resolution }
{
    let mut builds = Steps::<Benchmark>::zero();
    let plan = Plan::of(alloc, grammar)?;
    let mut room = Room::new(alloc);
    let mut last = None;
    for _ in 0..times {
        last = Some(build_planned(alloc, grammar, &plan, &mut room, bar, &mut builds)?);
    }
    Ok(last)
}
