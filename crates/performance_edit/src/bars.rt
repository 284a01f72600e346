ghost use Rattle.rhythm_base.specs.Barlines as barlines;
ghost use Rattle.edit_laws.specs.Edits as edits;
ghost use Rattle.edit_laws.specs.Edits.{performance_after};
ghost use Rattle.rhythm_base.specs.Lists.{last_of};
ghost use Rattle.rhythm_base.specs.Performance.{IsWellFormed};
ghost use Rattle.rhythm_base.specs.Signatures.{IsSignature};
ghost use Rattle.std.specs.Arc.{arc_slice_items};
ghost use Rattle.std.specs.Prelude.{◌≡◌, ◌≤◌, ◌-◌, ◌++◌, IfOk, length, take};

use rhythm_base::{Bar, Edit, Performance};
use std::alloc::{AllocError, Global};
use std::sync::ArcSlice;

/// Where a bar starts, or the last barline after the last bar.
pub fn barline(performance: &Performance, number: usize) -> u64
    ensures { result ≡ barlines.barline performance.now.bars performance.now.last number }
{
    match performance.bars().get(number) {
        Some(bar) => bar.start,
        None => performance.last(),
    }
}

/// Where the last bar starts.
pub fn last_start(performance: &Performance) -> u64
    ensures { result ≡ barlines.last_start performance.now }
{
    match performance.bars() {
        [] => performance.last(),
        [.., bar] => bar.start,
    }
}

/// The ticks of a whole bar of its signature.
fn nominal(division: u16, bar: &Bar) -> u64
    requires { IsSignature bar.now.num bar.now.den }
    ensures { result ≡ barlines.nominal division bar.now }
{
    4 * u64::from(division) * u64::from(bar.num) / u64::from(bar.den)
}

/// The last barline after one more bar of the last bar's signature.
pub fn next_barline(performance: &Performance) -> u64
    ensures { result ≡ barlines.next_barline performance.now }
{
    match performance.bars() {
        [] => performance.last(),
        [.., bar] => performance.last() + nominal(performance.division(), bar),
    }
}

/// The bars with another start of the bar of that number, where there is one.
fn with_barline(
    alloc: Global,
    bars: &[Bar],
    number: usize,
    tick: u64,
) -> Result<Vec<Bar>, AllocError>
    ensures { IfOk result (λ v. v.items ≡ edits.with_barline number tick bars.now) }
{
    let mut bars = Vec::from_slice(alloc, bars)?;
    if number < bars.len() {
        bars[number].start = tick;
    }
    Ok(bars)
}

/// The bars and one more of the last bar's signature, from the last barline on.
fn with_next(alloc: Global, bars: &[Bar], last: u64) -> Result<Vec<Bar>, AllocError>
    ensures { IfOk result (λ v. v.items ≡ bars.now ++ edits.next_bar last (last_of bars.now)) }
{
    match bars {
        [] => Ok(Vec::new(alloc)),
        [.., bar] => {
            let mut longer = Vec::with_capacity(alloc, bars.len().saturating_add(1))?;
            longer.extend_from_slice(bars)?;
            longer.push(Bar {
                start: last,
                ..*bar
            })?;
            Ok(longer)
        }
    }
}

/// The bars but the last.
fn without_last(alloc: Global, bars: &[Bar]) -> Result<Vec<Bar>, AllocError>
    ensures { IfOk result (λ v. v.items ≡ take (length bars.now - 1) bars.now) }
{
    match bars {
        [] => Ok(Vec::new(alloc)),
        [others @ .., _bar] => Vec::from_slice(alloc, others),
    }
}

/// The bars after an edit.
pub fn bars_after(
    alloc: Global,
    performance: &Performance,
    edit: &Edit,
) -> Result<ArcSlice<Bar>, AllocError>
    ensures bars { IfOk result (λ v. arc_slice_items v ≡ (performance_after performance.now edit.now).bars) }
    ensures formed { IsWellFormed performance.now }
{
    let bars = performance.bars();
    match edit {
        Edit::Barline { bar, tick } => {
            ArcSlice::from_vec(with_barline(alloc, bars, *bar as usize, *tick)?)
        }
        Edit::AddBar => ArcSlice::from_vec(with_next(alloc, bars, performance.last())?),
        Edit::DropBar => ArcSlice::from_vec(without_last(alloc, bars)?),
        Edit::Add { .. }
        | Edit::Drop { .. }
        | Edit::Move { .. }
        | Edit::Pin { .. }
        | Edit::Unpin { .. } => performance.shared_bars(),
    }
}

/// The last barline after an edit.
pub fn last_after(performance: &Performance, edit: &Edit) -> u64
    ensures { result ≡ (edits.performance_after performance.now edit.now).last }
{
    match edit {
        Edit::Barline { bar, tick } => {
            if *bar as usize == performance.bars().len() {
                *tick
            } else {
                performance.last()
            }
        }
        Edit::AddBar => next_barline(performance),
        Edit::DropBar => last_start(performance),
        Edit::Add { .. }
        | Edit::Drop { .. }
        | Edit::Move { .. }
        | Edit::Pin { .. }
        | Edit::Unpin { .. } => performance.last(),
    }
}
