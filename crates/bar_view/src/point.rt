ghost use Rattle.rhythm_base.specs.declared.limits.TheConstants.{MOST_UNITS};
ghost use Rattle.std.specs.Prelude.{◌≤◌, ◌*◌};

/// A point of a bar: ticks from the bar's start, times the units of a bar, so that a unit is as long as the bar has ticks.
#[derive(Clone, Copy)]
pub struct Point {
    /// The last unit that does not begin after it.
    pub unit: u16,
    /// How far the unit begins before it.
    pub rest: u64,
    ghost few: { unit ≤ MOST_UNITS },
}

impl Point {
    ghost use Rattle.bar_view.specs.Points.{IsFirstHalf, IsFirstUnit, IsLastHalf, IsPoint, IsShort};
    ghost use Rattle.interval.specs.OneLeaf.{IsBarOf};

    /// The point of a bar of so many ticks and units at this distance from its start, in ticks.
    #[inline(always)]
    pub fn of(length: u64, resolution: u16, at: u64) -> Point
        requires bar { IsBarOf length resolution }
        requires within { at ≤ length }
        ensures { IsPoint length (at * resolution) result }
    {
        let distance = at * u64::from(resolution);
        let unit = distance / length;
        let rest = distance - unit * length;
        Point {
            unit: unit as u16,
            rest,
        }
    }

    /// The first unit that does not begin before it.
    #[inline(always)]
    pub fn after(self) -> u16
        ensures { IsFirstUnit self result }
    {
        if self.rest == 0 {
            self.unit
        } else {
            self.unit + 1
        }
    }

    /// The first half of a unit that does not begin before it.
    #[inline(always)]
    pub fn half_after(self, length: u64) -> u16
        requires short { IsShort length self }
        ensures { IsFirstHalf length self result }
    {
        let first = 2 * self.unit;
        if self.rest == 0 {
            first
        } else if 2 * self.rest <= length {
            first + 1
        } else {
            first + 2
        }
    }

    /// The last half of a unit that does not begin after it.
    #[inline(always)]
    pub fn half_before(self, length: u64) -> u16
        requires short { IsShort length self }
        ensures { IsLastHalf length self result }
    {
        let first = 2 * self.unit;
        if 2 * self.rest < length {
            first
        } else {
            first + 1
        }
    }
}
