ghost use Rattle.interval.specs.OneLeaf.{IsBarOf};
ghost use Rattle.rhythm_base.specs.Cost.{displacement_of, is_after};
ghost use Rattle.rhythm_base.specs.Signatures.{IsSignature};
ghost use Rattle.std.specs.Prelude.{◌≡◌, ◌<◌, ◌≤◌};

/// How far an onset is displaced that is attached at unit `q`, in 960ths of a notated quarter of its bar, the whole part.
/// `q` may be the whole resolution, the start of the next bar.
pub fn displacement(num: u8, den: u8, length: u64, resolution: u16, q: u16, onset: u64) -> u64
    requires signature { IsSignature num den }
    requires bar { IsBarOf length resolution }
    requires unit { q ≤ resolution }
    requires onset { onset < length }
    ensures value { result ≡ displacement_of num den length resolution q onset }
    ensures small { result ≤ 245760 }
{
    let at = onset * u64::from(resolution);
    let unit = u64::from(q) * length;
    3840 * u64::from(num) * at.abs_diff(unit) / (u64::from(den) * (u64::from(resolution) * length))
}

/// Whether an onset that is attached at unit `q` was played after it.
pub fn late(length: u64, resolution: u16, q: u16, onset: u64) -> bool
    requires bar { IsBarOf length resolution }
    requires unit { q ≤ resolution }
    requires onset { onset < length }
    ensures { result ≡ is_after length resolution q onset }
{
    u64::from(q) * length < onset * u64::from(resolution)
}
