ghost use Rattle.rhythm_base.specs.Paths.{AreCheap, IsCheap};
ghost use Rattle.std.specs.Prelude.{◌≡◌, ◌<◌, ◌≤◌, ◌+◌, IfOk, length};

mod bars;
mod walk;

use bars::{
    closed_bar, dear, dear_or_carried, either_between, late_onset, nine_bars, open_bar, plain,
    rest_before, short_after, tied_after, tied_before, wide,
};
use carry_matrix::{CarryMatrix, Steps};
use chain_bars::{Around, Chain};
use rhythm_base::Tag;
use std::alloc::{AllocError, Global};
use std::test::Fail;
use walk::is_walked;

#[derive(Clone, Copy)]
struct Products;

impl Tag for Products {}

const NOWHERE: [Option<u64>; 5] = [None; 5];

#[test]
fn finds_the_dead_bar(rt: HostRuntime) -> Result<(), Fail> {
    let alloc = rt.alloc();
    let mut products = Steps::<Products>::zero();
    let mut chain = Chain::new(alloc, &[late_onset()], &mut products)?;
    assert!(rt; chain.total().is_none());
    assert!(rt; chain.first_dead() == Some(0));
    // A bar after it can take the chord.
    chain.push(&short_after(), &mut products)?;
    assert!(rt; chain.total() == Some(515));
    assert!(rt; chain.first_dead().is_none());
    chain.push(&open_bar(), &mut products)?;
    chain.push(&closed_bar(), &mut products)?;
    assert!(rt; chain.total().is_none());
    assert!(rt; chain.first_dead() == Some(3));
    chain.replace(1, &rest_before(), &mut products);
    assert!(rt; chain.first_dead() == Some(3));
    chain.pop(&mut products);
    assert!(rt; chain.first_dead() == Some(2));
    chain.replace(0, &closed_bar(), &mut products);
    assert!(rt; chain.first_dead() == Some(0));
    Ok(())
}

/// The counts of a chain; none where it has no path.
fn counts(alloc: Global, chain: &Chain) -> Result<Option<Vec<u8>>, AllocError> {
    if chain.total().is_some() {
        Ok(Some(chain.carries(alloc)?))
    } else {
        Ok(None)
    }
}

/// Whether the least path of two bars has the given counts.
fn carries(
    alloc: Global,
    first: &CarryMatrix,
    second: &CarryMatrix,
    wanted: [u8; 3],
) -> Result<bool, AllocError>
    requires first { IsCheap 500000000000 first.now }
    requires second { IsCheap 500000000000 second.now }
{
    let mut products = Steps::<Products>::zero();
    let chain = Chain::new(alloc, &[*first, *second], &mut products)?;
    match counts(alloc, &chain)? {
        Some(counts) => Ok(counts.as_slice() == wanted.as_slice()),
        None => Ok(false),
    }
}

#[test]
fn carries_the_stored_counts(rt: HostRuntime) -> Result<(), Fail> {
    let alloc = rt.alloc();
    // A chord that sounds over the barline, for 45 and 75.
    assert!(rt; carries(alloc, &rest_before(), &short_after(), [0, 1, 0])?);
    // Two ways, and the one over the greater count costs less.
    assert!(rt; carries(alloc, &dear_or_carried(), &short_after(), [0, 0, 0])?);
    assert!(rt; carries(alloc, &dear_or_carried(), &tied_after(), [0, 1, 0])?);
    // Two ways for 4: the lower list in the first bar decides.
    assert!(rt; carries(alloc, &tied_before(), &tied_after(), [0, 2, 0])?);
    assert!(rt; carries(alloc, &open_bar(), &open_bar(), [0, 0, 0])?);
    Ok(())
}

/// Whether the chain over these bars is that of the plain walk.
fn is_made(alloc: Global, cells: &[CarryMatrix]) -> Result<bool, AllocError>
    requires some { 1 ≤ length cells.now }
    requires few { length cells.now ≤ 9 }
    requires cheap { AreCheap 500000000000 cells.now }
{
    let mut products = Steps::<Products>::zero();
    let chain = Chain::new(alloc, cells, &mut products)?;
    is_walked(alloc, &chain, cells)
}

#[test]
fn is_the_plain_walk(rt: HostRuntime) -> Result<(), Fail> {
    let alloc = rt.alloc();
    let bars = nine_bars();
    assert!(rt; is_made(alloc, &bars[..1])?);
    assert!(rt; is_made(alloc, &bars[..2])?);
    assert!(rt; is_made(alloc, &bars[..3])?);
    assert!(rt; is_made(alloc, &bars[..5])?);
    assert!(rt; is_made(alloc, &bars[..8])?);
    assert!(rt; is_made(alloc, &bars)?);
    Ok(())
}

#[test]
fn pushes_and_pops_across_a_power_of_two(rt: HostRuntime) -> Result<(), Fail> {
    let alloc = rt.alloc();
    let mut products = Steps::<Products>::zero();
    let a = plain();
    let b = wide();
    let c = dear();
    let mut chain = Chain::new(alloc, &[a, b, c, a], &mut products)?;
    chain.push(&b, &mut products)?;
    assert!(rt; is_walked(alloc, &chain, &[a, b, c, a, b])?);
    chain.pop(&mut products);
    assert!(rt; is_walked(alloc, &chain, &[a, b, c, a])?);
    chain.push(&c, &mut products)?;
    chain.push(&b, &mut products)?;
    chain.push(&a, &mut products)?;
    chain.push(&c, &mut products)?;
    assert!(rt; is_walked(alloc, &chain, &[a, b, c, a, c, b, a, c])?);
    chain.push(&b, &mut products)?;
    assert!(rt; is_walked(alloc, &chain, &[a, b, c, a, c, b, a, c, b])?);
    chain.pop(&mut products);
    assert!(rt; is_walked(alloc, &chain, &[a, b, c, a, c, b, a, c])?);
    chain.replace(3, &b, &mut products);
    assert!(rt; is_walked(alloc, &chain, &[a, b, c, b, c, b, a, c])?);
    Ok(())
}

#[test]
fn costs_before_and_after(rt: HostRuntime) -> Result<(), Fail> {
    let alloc = rt.alloc();
    let mut products = Steps::<Products>::zero();
    let bars = [rest_before(), either_between(), short_after()];
    let chain = Chain::new(alloc, &bars, &mut products)?;
    let first = Around {
        before: [Some(0), None, None, None, None],
        after: [None, Some(8), None, None, None],
    };
    let middle = Around {
        before: [None, Some(45), None, None, None],
        after: [Some(5), Some(75), Some(170), None, None],
    };
    let last = Around {
        before: [Some(48), Some(49), None, None, None],
        after: [Some(0), None, None, None, None],
    };
    assert!(rt; chain.around(0, &mut products) == first);
    assert!(rt; chain.around(1, &mut products) == middle);
    assert!(rt; chain.around(2, &mut products) == last);
    Ok(())
}

#[test]
fn grows_within_its_room(rt: HostRuntime) -> Result<(), Fail> {
    let alloc = rt.alloc();
    let mut products = Steps::<Products>::zero();
    let mut chain = Chain::new(alloc, &[rest_before()], &mut products)?;
    chain.reserve(3)?;
    chain.push_within(&either_between(), &mut products);
    chain.push_within(&short_after(), &mut products);
    assert!(rt; chain.total() == Some(53));
    match counts(alloc, &chain)? {
        Some(counts) => assert!(rt; counts.as_slice() == [0, 1, 0, 0].as_slice()),
        None => assert!(rt; false),
    }
    Ok(())
}

/// How many products it takes to set the first of these bars.
fn products_of_setting(alloc: Global, cells: &[CarryMatrix]) -> Result<u64, AllocError>
    requires some { 1 ≤ length cells.now }
    requires few { length cells.now ≤ 9 }
    requires cheap { AreCheap 500000000000 cells.now }
{
    let mut making = Steps::<Products>::zero();
    let mut chain = Chain::new(alloc, cells, &mut making)?;
    let mut setting = Steps::<Products>::zero();
    chain.replace(0, &open_bar(), &mut setting);
    Ok(setting.count())
}

#[test]
fn sets_a_bar_by_one_product_a_level(rt: HostRuntime) -> Result<(), Fail> {
    let alloc = rt.alloc();
    let bars = nine_bars();
    assert!(rt; products_of_setting(alloc, &bars[..1])? == 0);
    assert!(rt; products_of_setting(alloc, &bars[..2])? == 1);
    assert!(rt; products_of_setting(alloc, &bars[..3])? == 2);
    assert!(rt; products_of_setting(alloc, &bars[..5])? == 3);
    assert!(rt; products_of_setting(alloc, &bars[..8])? == 3);
    assert!(rt; products_of_setting(alloc, &bars)? == 4);
    Ok(())
}

/// A thousand bars that carry on what is carried in.
fn thousand_bars(alloc: Global) -> Result<Vec<CarryMatrix>, AllocError>
    ensures count { IfOk result (λ v. length v.items ≡ 1000) }
    ensures cheap { IfOk result (λ v. AreCheap 500000000000 v.items) }
{
    let bar = open_bar();
    Ok(vec![in alloc; bar; 1000]?)
}

#[test]
fn sets_one_of_a_thousand_bars_by_ten_products(rt: HostRuntime) -> Result<(), Fail> {
    let alloc = rt.alloc();
    let bars = thousand_bars(alloc)?;
    let mut making = Steps::<Products>::zero();
    let mut chain = Chain::new(alloc, &bars, &mut making)?;
    assert!(rt; making.count() == 999);
    let mut setting = Steps::<Products>::zero();
    chain.replace(0, &open_bar(), &mut setting);
    assert!(rt; setting.count() <= 10);
    chain.replace(499, &open_bar(), &mut setting);
    assert!(rt; setting.count() <= 20);
    chain.replace(999, &open_bar(), &mut setting);
    assert!(rt; setting.count() <= 30);
    Ok(())
}
