ghost use Rattle.durations.specs.declared.grid.TheConstants.{MOST_GRID};
ghost use Rattle.std.specs.Prelude.{◌≡◌, ◌*◌, ◌+◌, ◌<◌, ◌≤◌, ◌++◌, ◌^◌, All, IfOk, IfSome, OnOk, length, map, sum, true};
ghost use Rattle.durations.specs.Joined as bars;
ghost use Rattle.durations.specs.Joined.{AreWritten, AreValuesOf, IsTimedLeaf, value_places};
ghost use Rattle.durations.specs.Laws.{CountsIn, FillTheBar};
ghost use Rattle.durations.specs.Value as lengths;
ghost use Rattle.durations.specs.Value.{IsWide};

use crate::grid::Grid;
use crate::notation::push_length;
use crate::value::{Recip, Value, width};
use rhythm_base::SoundKind;
use std::alloc::{AllocError, Global};

/// A leaf of a bar, as long as it is written.
#[derive(Clone, Copy, Debug, PartialEq, Eq)]
pub struct Timed {
    /// How many of the equal parts of a whole note in which the bar counts: of a leaf of `width` units of a bar in `num`/`den`
    /// these are `width * num`, of `resolution * den` in a whole note.
    pub len: u64,
    pub kind: SoundKind,
}

/// A value in its bar.
#[derive(Clone, Copy, Debug, PartialEq, Eq)]
pub struct Written {
    /// The leaf that it is a value of, numbered from 0: the first one where several are joined.
    pub leaf: u32,
    /// How many parts of a whole note after the bar's start it begins.
    pub from: u64,
    pub value: Value,
}

/// Whether ties after a leaf may be joined to it.
fn may_join(leaf: Timed, whole: Grid) -> bool
    requires { IsTimedLeaf whole leaf }
    ensures { result ≡ bars.may_join whole leaf }
{
    matches!(leaf.kind, SoundKind::Begin | SoundKind::Tie) && whole.count() % leaf.len == 0
}

/// Whether there is such a leaf, and it is a tie of this part of a length: 2 is half of it.
fn is_tie_of(leaf: Option<Timed>, part: u64, len: u64) -> bool
    requires { IfSome leaf (λ x. part * x.len < 2 ^ 64) }
    ensures { result ≡ bars.is_tie_of len part leaf }
{
    leaf.is_some_and(|tie| tie.kind == SoundKind::Tie && part * tie.len == len)
}

/// The dots that a leaf takes from those after it.
fn dots(leaf: Timed, more: &[Timed], whole: Grid) -> u8
    requires leaf { IsTimedLeaf whole leaf }
    requires more { All (IsTimedLeaf whole) more.now }
    ensures { result ≡ bars.dots whole leaf more.now }
{
    if !may_join(leaf, whole) || !is_tie_of(more.first().copied(), 2, leaf.len) {
        0
    } else if is_tie_of(more.get(1).copied(), 4, leaf.len) {
        2
    } else {
        1
    }
}

/// Puts the values of a leaf in the place of those in the list: those of its length, or one with a dot for each leaf that is
/// joined to it.
fn renew(values: &mut Vec<Value>, leaf: Timed, dots: u8, whole: Grid) -> Result<(), AllocError>
    requires leaf { IsTimedLeaf whole leaf }
    requires joined { 0 < dots → bars.may_join whole leaf ≡ true }
    ensures { OnOk result (AreValuesOf whole leaf dots values.new.items) }
{
    values.clear();
    if dots == 0 {
        return push_length(values, leaf.len, whole);
    }
    let recip = Recip::Of((whole.count() / leaf.len) as u32);
    Ok(values.push(Value { recip, dots })?)
}

/// Writes values of the leaf, one after another from this place on.
fn push_values(
    written: &mut Vec<Written>,
    values: &[Value],
    leaf: u32,
    place: u64,
    whole: Grid,
) -> Result<(), AllocError>
    requires dots { All (λ v. v.dots ≤ 2) values.now }
    requires wide { All (IsWide whole) values.now }
    requires end { place + sum (map (lengths.width whole) values.now) < 2 ^ 64 }
    ensures { OnOk result (written.new.items ≡ written.old.items ++ value_places whole leaf place values.now) }
{
    let mut from = place;
    'values: for value in values {
        written.push(Written {
            leaf,
            from,
            value: *value,
        })?;
        from += width(*value, whole);
    }
    Ok(())
}

/// The values of the leaves of one bar, from left to right and with joined dots: a leaf of 1/n of a whole note that begins a
/// chord or is a tie takes a dot from a tie of half its length after it, and then a second from a tie of a quarter. A short
/// leaf and a rest take none and give none. Lengths and places count in parts of 1/`whole` of a whole note.
pub fn values_of(alloc: Global, leaves: &[Timed], whole: u64) -> Result<Vec<Written>, AllocError>
    requires some { 1 ≤ whole }
    requires few { whole ≤ MOST_GRID }
    requires leaves { All (IsTimedLeaf whole) leaves.now }
    requires bar { sum (map (λ x. x.len) leaves.now) ≤ 64 * whole }
    ensures written { IfOk result (λ v. AreWritten whole leaves.now v.items) }
    ensures fills { IfOk result (λ v. FillTheBar whole leaves.now v.items) }
    ensures leaf { IfOk result (λ v. All (λ w. w.leaf < length leaves.now) v.items) }
    ensures dots { IfOk result (λ v. All (λ w. w.dots ≤ 2) (map (λ w. w.value) v.items)) }
    ensures grid { IfOk result (λ v. All (CountsIn whole) (map (λ w. w.value) v.items)) }
{
    let grid = Grid::of(whole);
    let mut written = Vec::with_capacity(alloc, leaves.len())?;
    let mut values = Vec::new(alloc);
    let mut joined = 0;
    let mut place = 0;
    'leaves: for (leaf, timed) in leaves.iter().enumerate() {
        if joined > 0 {
            joined -= 1;
        } else {
            joined = dots(*timed, &leaves[leaf + 1..], grid);
            renew(&mut values, *timed, joined, grid)?;
            push_values(&mut written, &values, leaf as u32, place, grid)?;
        }
        place += timed.len;
    }
    Ok(written)
}
