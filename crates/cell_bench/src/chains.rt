ghost use Rattle.chain_bars.specs.Laws.{matrices};
ghost use Rattle.rhythm_base.specs.Paths.{AreCheap};
ghost use Rattle.rhythm_base.specs.declared.limits.TheConstants.{DEAREST_CELL, MOST_BARS};
ghost use Rattle.std.specs.Prelude.{◌≡◌, ◌≤◌, IfOk, length};

use crate::Benchmark;
use carry_matrix::{CarryMatrix, Steps};
use chain_bars::Chain;
use least_cost::BarTable;
use std::alloc::{AllocError, Global};

/// What is done with a chain over and over.
#[derive(Clone, Copy)]
pub enum ChainWork {
    /// It is made anew.
    New,
    /// One of its cells is replaced.
    Replace,
}

impl ChainWork {
    /// What a word says.
    pub fn named(name: &str) -> Option<ChainWork> {
        match name {
            "new" => Some(ChainWork::New),
            "replace" => Some(ChainWork::Replace),
            _ => None,
        }
    }
}

/// The matrices of the tables, one after another.
pub fn matrices_of(alloc: Global, tables: &[BarTable]) -> Result<Vec<CarryMatrix>, AllocError>
    ensures { IfOk result (λ v. v.items ≡ matrices tables.now) }
{
    tables.iter().map(|table| *table.matrix()).collect(alloc)
}

/// Makes the chain once, and so often again.
fn chain_of(
    alloc: Global,
    cells: &[CarryMatrix],
    again: u32,
    products: &mut Steps<Benchmark>,
) -> Result<Chain, AllocError>
    requires some { 1 ≤ length cells.now }
    requires few { length cells.now ≤ MOST_BARS }
    requires cheap { AreCheap DEAREST_CELL cells.now }
    ensures { IfOk result (λ c. c.cells ≡ cells.now) }
{
    let mut chain = Chain::new(alloc, cells, products)?;
    'times: for _ in 0..again {
        chain = Chain::new(alloc, cells, products)?;
    }
    Ok(chain)
}

/// Replaces cells of the chain over these so often, all over the chain: each by the next of the cells.
fn replace_cells(
    chain: &mut Chain,
    cells: &[CarryMatrix],
    times: u32,
    products: &mut Steps<Benchmark>,
)
    requires cells { chain.old.cells ≡ cells.now }
    requires some { 1 ≤ length cells.now }
    requires cheap { AreCheap DEAREST_CELL cells.now }
{
    let count = cells.len() as u64;
    'times: for time in 0..times {
        let place = u64::from(time) * 1237 % count;
        let next = u64::from(time) % count;
        chain.replace(place as usize, &cells[next as usize], products);
    }
}

/// The least cost of the chain over these cells after so many times of this, and the number of products that were made.
pub fn chained(
    alloc: Global,
    cells: &[CarryMatrix],
    work: ChainWork,
    times: u32,
) -> Result<(Option<u64>, u64), AllocError>
    requires some { 1 ≤ length cells.now }
    requires few { length cells.now ≤ MOST_BARS }
    requires cheap { AreCheap DEAREST_CELL cells.now }
{
    let mut products = Steps::<Benchmark>::zero();
    let chain = match work {
        ChainWork::New => chain_of(alloc, cells, times, &mut products)?,
        ChainWork::Replace => {
            let mut chain = chain_of(alloc, cells, 0, &mut products)?;
            replace_cells(&mut chain, cells, times, &mut products);
            chain
        }
    };
    Ok((chain.total(), products.count()))
}
