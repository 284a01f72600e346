ghost use Rattle.bar_pool.specs.Orders.{AreFound, others};
ghost use Rattle.bar_pool.specs.Pool.{AreTablesOf, RisesWithin};
ghost use Rattle.bar_pool.specs.Sources.{AreSources};
ghost use Rattle.rhythm_base.specs.Counter.{risen};
ghost use Rattle.std.specs.Prelude.{◌≡◌, IfOk, OnOk};

use crate::order::Order;
use least_cost::{BarTable, Steps};
use rhythm_base::Tag;
use rhythm_ports::{Gate, Means};
use std::alloc::AllocError;
use std::thread::Threads;

/// The tables of all inputs, by those that were found for the searched ones. The gate is passed before a table is taken over.
pub fn spread<R: Threads + Sync, G: Gate + Sync, B: Tag>(
    means: &Means<'_, R, G>,
    order: &Order<'_>,
    equals: &[Option<usize>],
    found: Vec<BarTable>,
    builds: &mut Steps<B>,
) -> Result<Vec<BarTable>, AllocError>
    requires sources { AreSources order.now.inputs.now equals.now }
    requires found { AreFound order.now equals.now found.items }
    ensures tables { IfOk result (λ v. AreTablesOf order.now.grammar.now order.now.inputs.now v.items) }
    ensures builds { OnOk result (builds.new ≡ risen builds.old (others order.now found.items)) }
    ensures most { RisesWithin builds.old builds.new (others order.now found.items) }
{
    let mut found = found.into_iter();
    let mut tables: Vec<BarTable> = Vec::with_capacity(means.alloc, equals.len())?;
    'inputs: for number in 0..order.inputs.len() {
        let table = match equals[number] {
            Some(earlier) => {
                means.gate.pass(number as u64);
                tables[earlier].for_equal_input(means.alloc, builds)?
            }
            None => match found.next() {
                Some(table) => table,
                None => unreachable!(),
            },
        };
        tables.push(table)?;
    }
    Ok(tables)
}
