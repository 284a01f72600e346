ghost use Rattle.durations.specs.declared.grid.TheConstants.{MOST_GRID};
ghost use Rattle.std.specs.Prelude.{◌≡◌, ◌*◌, ◌<◌, ◌≤◌, ◌++◌, List, ◌∷◌, All, IfOk, OnOk};
ghost use Rattle.durations.specs.Laws.{CountsIn, SumTo};
ghost use Rattle.durations.specs.Values.{AreValues};
ghost use Rattle.durations.specs.declared.value.Value.{Value};

use crate::grid::Grid;
use crate::length::{lowest_parts, single, taken};
use crate::value::Value;
use std::alloc::{AllocError, Global};

/// The first value of a length, and what it leaves of the length.
fn first_value(len: u64, whole: Grid) -> (Value, u64, Grid)
    requires { 1 ≤ len }
    ensures values { (more : List Value) → AreValues result.1 result.2 more → AreValues len whole (result.0 ∷ more) }
    ensures less { result.1 < len }
{
    let (parts, coarser) = lowest_parts(len, whole);
    match single(parts, coarser) {
        Some(value) => (value, 0, coarser),
        None => {
            let (off, recip) = taken(parts, coarser);
            (Value { recip, dots: 0 }, parts - off, coarser)
        }
    }
}

/// Appends the values of a length of `len` of `whole` equal parts of a whole note, as `notate` gives them.
pub(crate) fn push_length(values: &mut Vec<Value>, len: u64, whole: Grid) -> Result<(), AllocError>
    ensures { OnOk result ((own : List Value) × AreValues len whole own × (values.new.items ≡ values.old.items ++ own)) }
{
    let mut left = len;
    let mut grid = whole;
    'values: while left > 0 {
        let (value, rest, coarser) = first_value(left, grid);
        values.push(value)?;
        left = rest;
        grid = coarser;
    }
    Ok(())
}

/// The values of a length of `len` of `whole` equal parts of a whole note, one after another. Where the length in lowest terms
/// is no single value, the largest power of two of its parts that is a value without dots is taken off, and the rest is
/// treated so again: 5/4 is a whole note and a quarter, 5/3 a third, a third and a whole note.
pub fn notate(alloc: Global, len: u64, whole: u64) -> Result<Vec<Value>, AllocError>
    requires some { 1 ≤ len }
    requires parts { 1 ≤ whole }
    requires few_parts { whole ≤ MOST_GRID }
    requires few { len ≤ 64 * whole }
    ensures values { IfOk result (λ v. AreValues len whole v.items) }
    ensures sum { IfOk result (λ v. SumTo len whole v.items) }
    ensures dots { IfOk result (λ v. All (λ w. w.dots ≤ 2) v.items) }
    ensures grid { IfOk result (λ v. All (CountsIn whole) v.items) }
{
    let mut values = Vec::new(alloc);
    push_length(&mut values, len, Grid::of(whole))?;
    Ok(values)
}
