ghost use Rattle.carry_matrix.specs.Choices.{choice_code, choices_below, choices_code};
ghost use Rattle.carry_matrix.specs.LowSums.{HaveLowSums};
ghost use Rattle.carry_matrix.specs.Rows.{row_code};
ghost use Rattle.rhythm_base.specs.Counter.{risen};
ghost use Rattle.rhythm_base.specs.Paths.{IsRanked};
ghost use Rattle.rhythm_base.specs.Ranked.{at, choice, middle_of, product_of};
ghost use Rattle.std.specs.Prelude.{◌≡◌, ◌+◌, ◌<◌};

use crate::choice::{Choice, Choices, nearer, nearer_row, none, row_chosen};
use crate::matrix::CarryMatrix;
use crate::row::{ABOVE_COSTS, Row};
use crate::steps::Steps;
use rhythm_base::{Carry, Tag};

/// The count in the middle and its sum.
fn chosen(a: &CarryMatrix, b: &CarryMatrix, from: Carry, to: Carry) -> Choice
    requires ranked { IsRanked b.now }
    requires small { HaveLowSums a.now b.now }
    ensures { result ≡ choice_code (choice a.now b.now from to) }
{
    let place = to.index();
    let mut best = none();
    'counts: for middle in 0..5u8 {
        let count = Carry::of(middle);
        if let Some(left) = a.entry(from, count) {
            let row = b.row(count);
            best = nearer(best, left, row.costs[place], row.ranks[place], middle);
        }
    }
    best
}

/// The counts in the middle and their sums, for each number carried out, where those below a count are known.
#[inline(always)]
fn with_middle(
    choices: &Choices,
    a: &CarryMatrix,
    b: &CarryMatrix,
    from: Carry,
    middle: Carry,
) -> Choices
    requires ranked { IsRanked b.now }
    requires small { HaveLowSums a.now b.now }
    requires known { choices.now ≡ choices_below a.now b.now from middle }
    ensures { result ≡ choices_below a.now b.now from (middle + 1) }
{
    if let Some(left) = a.entry(from, middle) {
        nearer_row(choices, left, b.row(middle), middle.count())
    } else {
        *choices
    }
}

/// The counts in the middle and their sums, for each number carried out. Written without a loop, so that the choices stay
/// in registers.
#[inline(always)]
fn chosen_row(a: &CarryMatrix, b: &CarryMatrix, from: Carry) -> Choices
    requires ranked { IsRanked b.now }
    requires small { HaveLowSums a.now b.now }
    ensures { result ≡ choices_code (choice a.now b.now from) }
{
    let first = with_middle(&[none(); 5], a, b, from, Carry::of(0));
    let second = with_middle(&first, a, b, from, Carry::of(1));
    let third = with_middle(&second, a, b, from, Carry::of(2));
    let fourth = with_middle(&third, a, b, from, Carry::of(3));
    with_middle(&fourth, a, b, from, Carry::of(4))
}

/// The row of the product for a number carried in.
#[inline(always)]
fn product_row(a: &CarryMatrix, b: &CarryMatrix, from: Carry) -> Row
    requires ranked { IsRanked b.now }
    requires small { HaveLowSums a.now b.now }
    ensures { result ≡ row_code (at (product_of a.now b.now) from) }
{
    let _range = from.count();
    row_chosen(&chosen_row(a, b, from))
}

/// The table of the bars of `a` and then those of `b`: for each number carried in and out the least sum over the count in
/// the middle, and at equal sums that of the lower rank in `a`. Its ranks order by the rank in `a` and then by that in `b`.
/// It takes one step.
pub fn product<P: Tag>(a: &CarryMatrix, b: &CarryMatrix, products: &mut Steps<P>) -> CarryMatrix
    requires small { HaveLowSums a.now b.now }
    ensures result { result ≡ product_of a.now b.now }
    ensures products { products.new ≡ risen products.old 1 }
{
    products.tick();
    a.see();
    b.see();
    let first = product_row(a, b, Carry::of(0));
    let second = product_row(a, b, Carry::of(1));
    let third = product_row(a, b, Carry::of(2));
    let fourth = product_row(a, b, Carry::of(3));
    let fifth = product_row(a, b, Carry::of(4));
    CarryMatrix::of([first, second, third, fourth, fifth])
}

/// The count in the middle that `product` takes, none where no count has both entries.
pub fn between(a: &CarryMatrix, b: &CarryMatrix, from: Carry, to: Carry) -> Option<Carry>
    requires small { HaveLowSums a.now b.now }
    ensures { result ≡ middle_of a.now b.now from to }
{
    b.see();
    let _range = to.count();
    let choice = chosen(a, b, from, to);
    if choice.cost < ABOVE_COSTS {
        Some(Carry::of(choice.middle as u8))
    } else {
        None
    }
}

/// The same for numbers carried in and out, each 0 to 4.
#[inline(always)]
pub fn middle(a: &CarryMatrix, b: &CarryMatrix, from: u8, to: u8) -> Option<u8>
    requires from { from < 5 }
    requires to { to < 5 }
    requires small { HaveLowSums a.now b.now }
    ensures { result ≡ middle_of a.now b.now from to }
{
    match between(a, b, Carry::of(from), Carry::of(to)) {
        Some(count) => Some(count.count()),
        None => None,
    }
}
