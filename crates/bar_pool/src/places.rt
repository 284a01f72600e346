ghost use Rattle.bar_pool.specs.Draws.{HasEachBelow, occurrences};
ghost use Rattle.bar_pool.specs.Places.{AreFilled, StandAt, StandIn};
ghost use Rattle.bar_pool.specs.Workers.{numbers};
ghost use Rattle.std.specs.Prelude.{◌≡◌, ◌<◌, ◌≤◌, ℕ, IfOk, Some, None, length, map};

use std::alloc::{AllocError, Global};

/// The things in the order of their numbers.
pub fn in_places<T: Drop>(
    alloc: Global,
    numbered: Vec<(usize, T)>,
    count: usize,
) -> Result<Vec<T>, AllocError>
    requires { HasEachBelow count (numbers numbered.items) }
    ensures count { IfOk result (λ v. length v.items ≡ count) }
    ensures places { IfOk result (λ v. StandIn numbered.items v.items) }
{
    let mut places = empty_places(alloc, count)?;
    fill(numbered, &mut places);
    all_of(alloc, places)
}

fn empty_places<T: Drop>(alloc: Global, count: usize) -> Result<Vec<Option<T>>, AllocError>
    ensures { IfOk result (λ v. length v.items ≡ count) }
{
    let mut places = Vec::with_capacity(alloc, count)?;
    for _ in 0..count {
        places.push(None)?;
    }
    Ok(places)
}

/// Moves each thing to its place.
fn fill<T: Drop>(numbered: Vec<(usize, T)>, places: &mut Vec<Option<T>>)
    requires once { (x : ℕ) → occurrences x (numbers numbered.items) ≤ 1 }
    requires within { (x : ℕ) → 1 ≤ occurrences x (numbers numbered.items) → x < length places.old.items }
    ensures length { length places.new.items ≡ length places.old.items }
    ensures stand { StandAt numbered.items places.new.items }
{
    let mut numbered = numbered;
    'fill: while let Some((number, thing)) = numbered.pop() {
        places[number] = Some(thing);
    }
}

/// Moves the things out of their places.
fn all_of<T: Drop>(alloc: Global, places: Vec<Option<T>>) -> Result<Vec<T>, AllocError>
    requires { AreFilled places.items }
    ensures { IfOk result (λ v. map (λ t. Some t) v.items ≡ places.items) }
{
    let mut places = places;
    let mut things = Vec::with_capacity(alloc, places.len())?;
    'take: while let Some(place) = places.pop() {
        match place {
            Some(thing) => things.push(thing)?,
            None => unreachable!(),
        }
    }
    things.reverse();
    Ok(things)
}
