ghost use Rattle.performance_prepare.specs.Middle as middles;
ghost use Rattle.performance_prepare.specs.Sides.{AreOfKeys, ArePart, IsSide, keys_at};
ghost use Rattle.performance_prepare.specs.PartedSides.{IsPartingBelow, IsPartingOf};
ghost use Rattle.rhythm_base.specs.Lists.{greatest, least_of};
ghost use Rattle.rhythm_base.specs.declared.limits.TheConstants.{MOST_NOTES};
ghost use Rattle.std.specs.Prelude.{◌≡◌, ◌≢◌, ◌≤◌, ◌<◌, ◌+◌, ◌*◌, ◌/◌, All, IfOk, ℕ, length, map, min, slice_index};
ghost use Rattle.std.specs.List.{reduce, sum};

use std::alloc::{AllocError, Global};

/// The border between the hands where it lies midway on a keyboard.
const USUAL: u64 = 60;

/// The sum of keys.
fn sum_of(keys: &[u8]) -> u64
    requires few { length keys.now ≤ MOST_NOTES }
    requires keys { All (λ k. k < 128) keys.now }
    ensures sum { result ≡ sum keys.now }
    ensures low { result ≤ 127 * length keys.now }
{
    let mut total = 0;
    for key in keys {
        total += u64::from(*key);
    }
    total
}

/// How many keys there are of each number.
fn counts_of(keys: &[u8]) -> [u64; 128]
    requires few { length keys.now ≤ MOST_NOTES }
    requires keys { All (λ k. k < 128) keys.now }
    ensures { (key : ℕ) → key < 128 → slice_index result key ≡ length (keys_at key keys.now) }
{
    let mut counts = [0u64; 128];
    for key in keys {
        counts[*key as usize] += 1;
    }
    counts
}

/// The keys on a side of a border: how many there are, and their sum.
#[derive(Clone, Copy)]
struct Side {
    count: u64,
    sum: u64,
}

/// With so many keys more of a number.
fn with_keys(side: Side, key: u8, more: u64) -> Side
    requires few { side.count + more ≤ MOST_NOTES }
    requires side { AreOfKeys side.count side.sum }
    ensures count { result.count ≡ side.count + more }
    ensures sum { result.sum ≡ side.sum + key * more }
{
    Side {
        count: side.count + more,
        sum: side.sum + u64::from(key) * more,
    }
}

/// The mean of keys in sixteenths, rounded down, of one key at least.
fn mean(side: Side) -> u64
    requires some { side.count ≢ 0 }
    requires keys { AreOfKeys side.count side.sum }
    ensures mean { result ≡ (16 * side.sum) / side.count }
    ensures low { result ≤ 2032 }
{
    16 * side.sum / side.count
}

/// How well a border parts keys, by those below it and the others.
fn parting(below: Side, above: Side) -> u64
    requires below { AreOfKeys below.count below.sum }
    requires above { AreOfKeys above.count above.sum }
    ensures { IsPartingOf below above result }
{
    if below.count == 0 || above.count == 0 {
        return 0;
    }
    let apart = mean(above).saturating_sub(mean(below));
    below.count * above.count * (apart * apart)
}

/// How well a border parts keys, by those below it and all.
fn parting_within(below: Side, all: Side) -> u64
    requires part { ArePart below.count below.sum all.count all.sum }
    requires all { AreOfKeys all.count all.sum }
    ensures { IsPartingBelow below all result }
{
    let above = Side {
        count: all.count - below.count,
        sum: all.sum - below.sum,
    };
    parting(below, above)
}

/// How well each border from 1 to 127 parts the keys.
fn partings(alloc: Global, keys: &[u8]) -> Result<Vec<u64>, AllocError>
    requires few { length keys.now ≤ MOST_NOTES }
    requires keys { All (λ k. k < 128) keys.now }
    ensures { IfOk result (λ v. v.items ≡ map (middles.parting keys.now) middles.inner_borders) }
{
    let counts = counts_of(keys);
    let all = Side {
        count: keys.len() as u64,
        sum: sum_of(keys),
    };
    let mut list = Vec::new(alloc);
    let mut below = Side { count: 0, sum: 0 };
    'borders: for border in 1..128u8 {
        below = with_keys(below, border - 1, counts[border as usize - 1]);
        list.push(parting_within(below, all))?;
    }
    Ok(list)
}

/// The greatest of the numbers, 0 without one.
fn greatest_of(numbers: &[u64]) -> u64
    ensures { result ≡ greatest numbers.now }
{
    let mut most = 0;
    for number in numbers {
        most = most.max(*number);
    }
    most
}

/// The least of the numbers, where there is one.
fn least(numbers: &[u64]) -> Option<u64>
    ensures { result ≡ reduce min numbers.now }
{
    numbers.iter().map(|number| *number).min()
}

/// The least of the numbers, 0 without one.
fn least_number(numbers: &[u64]) -> u64
    ensures { result ≡ least_of numbers.now }
{
    match least(numbers) {
        Some(number) => number,
        None => 0,
    }
}

/// The borders from 1 on that part the keys so well, of these partings.
fn borders_at(alloc: Global, partings: &[u64], best: u64) -> Result<Vec<u64>, AllocError>
    requires { length partings.now ≡ 127 }
    ensures { IfOk result (λ v. v.items ≡ middles.borders_at partings.now best) }
{
    let mut list = Vec::new(alloc);
    'borders: for border in 1..128usize {
        if partings[border - 1] == best {
            list.push(border as u64)?;
        }
    }
    Ok(list)
}

/// Midway between the lowest and the highest of the borders that part the keys best; 60 where all keys are one.
fn parting_border(alloc: Global, keys: &[u8]) -> Result<u64, AllocError>
    requires few { length keys.now ≤ MOST_NOTES }
    requires keys { All (λ k. k < 128) keys.now }
    ensures border { IfOk result (λ n. n ≡ middles.parting_border keys.now) }
    ensures low { IfOk result (λ n. n ≤ 127) }
{
    let partings = partings(alloc, keys)?;
    let best = greatest_of(&partings);
    if best == 0 {
        return Ok(USUAL);
    }
    let borders = borders_at(alloc, &partings, best)?;
    Ok((least_number(&borders) + greatest_of(&borders)) / 2)
}

/// The middle of the keys that two hands play.
pub fn middle(alloc: Global, keys: &[u8]) -> Result<u8, AllocError>
    requires few { length keys.now ≤ MOST_NOTES }
    requires keys { All (λ k. k < 128) keys.now }
    ensures { IfOk result (λ n. n ≡ middles.middle keys.now) }
{
    let border = parting_border(alloc, keys)?;
    Ok(((3 * border + 62) / 4) as u8)
}
