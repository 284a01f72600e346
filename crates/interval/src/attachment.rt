ghost use Rattle.interval.specs.OneLeaf.{IsLeafOf, IsSide, leaf_at};
ghost use Rattle.rhythm_base.specs.Leaves as leaves;
ghost use Rattle.std.specs.Prelude.{◌≡◌, ◌<◌, ◌≤◌};

/// Where an onset goes, as one leaf sees it.
#[derive(Clone, Copy, Debug, PartialEq, Eq)]
pub enum Attached {
    /// It is before the leaf.
    Before,
    /// It lies in the leaf and is attached to it: it is not after the middle.
    Left,
    /// It lies in the leaf and is attached to the next one: it is after the middle.
    Right,
    /// It is after the leaf.
    After,
}

/// Where an onset goes, by the leaf of `w` units from unit `p` on in a bar of `length` ticks and `resolution` units. The
/// onset counts in ticks from the bar's start. One exactly in the leaf's middle goes to the leaf.
pub fn side(length: u64, resolution: u16, p: u16, w: u16, onset: u64) -> Attached
    requires leaf { IsLeafOf length resolution p w }
    requires onset { onset < length }
    ensures { IsSide length resolution p w onset result }
{
    let at = onset * u64::from(resolution);
    let start = u64::from(p) * length;
    let end = u64::from(p + w) * length;
    if at < start {
        Attached::Before
    } else if end <= at {
        Attached::After
    } else if 2 * (at - start) <= u64::from(w) * length {
        Attached::Left
    } else {
        Attached::Right
    }
}

/// Whether a chord that ends at `end`, in ticks from the bar's start, sounds in the leaf: it does where it does not end
/// before the leaf's middle.
pub fn sounds(length: u64, resolution: u16, p: u16, w: u16, end: u64) -> bool
    requires leaf { IsLeafOf length resolution p w }
    requires end { end ≤ length }
    ensures { result ≡ leaves.sounds resolution (leaf_at length p w) end }
{
    let middle = u64::from(2 * p + w) * length;
    middle <= 2 * end * u64::from(resolution)
}
