ghost use Rattle.bar_view.specs.Units.{AreUnits, BeginsIn, IsEndOfEarlier, IsFilled, IsFilledFrom, SplitsAll};
ghost use Rattle.rhythm_base.specs.BarInput.{IsBarInput};
ghost use Rattle.std.specs.Prelude.{◌≡◌, ◌+◌, ◌≤◌, OnOk, length, max};

use crate::point::Point;
use crate::stretch::Stretch;
use rhythm_base::BarInput;
use row_laws::Quiet;
use std::alloc::{AllocError, Global};

/// The chords of a bar by the unit.
#[derive(Drop)]
pub struct Units {
    /// How many onsets are before the unit.
    pub below: Vec<u32>,
    /// The quiet units from the unit on. Where it is not quiet itself, the stretch goes up to no later unit.
    pub quiet: Vec<Stretch>,
}

impl Units {
    /// No units.
    pub fn new(alloc: Global) -> Units {
        Units {
            below: Vec::new(alloc),
            quiet: Vec::new(alloc),
        }
    }

    /// Forgets all units, and takes room for so many and the end of the last one.
    pub fn clear(&mut self, units: u16) -> Result<(), AllocError>
        ensures below { OnOk result (length self.new.below.items ≡ 0) }
        ensures quiet { OnOk result (length self.new.quiet.items ≡ 0) }
    {
        self.below.clear();
        self.quiet.clear();
        self.below.reserve(usize::from(units) + 1)?;
        self.quiet.reserve(usize::from(units) + 1)
    }

    /// Goes on up to `last`, the unit in which the next chord begins, or the end of the bar: so many chords begin before, and
    /// the last of them ends at a point.
    pub fn go_on(
        &mut self,
        input: &BarInput,
        count: u32,
        end: Point,
        last: u16,
    ) -> Result<(), AllocError>
        requires cell { IsBarInput input.now }
        requires units { AreUnits input.now self.old }
        requires split { SplitsAll input.now (length self.old.below.items) last count }
        requires end { IsEndOfEarlier input.now count end }
        requires within { last ≤ input.now.resolution }
        requires next { BeginsIn input.now count last }
        ensures units { OnOk result (AreUnits input.now self.new) }
        ensures long { OnOk result (length self.new.below.items ≡ max (length self.old.below.items) (last + 1)) }
    {
        let next = usize::from(last);
        if next < self.below.len() {
            return Ok(());
        }
        self.below.resize(next + 1, count)?;
        fill(&mut self.quiet, end, last)?;
        self.quiet.push(Stretch::none())?;
        Ok(())
    }
}

/// Goes on up to a unit, and no chord begins before it: those that the chord before fills, which ends at a point, the one
/// in which it ends, and those after it.
fn fill(quiet: &mut Vec<Stretch>, end: Point, next: u16) -> Result<(), AllocError>
    ensures { OnOk result (IsFilledFrom end next quiet.old.items quiet.new.items) }
{
    let full = end.unit.min(next);
    let over = end.after().min(next);
    let sounding = Stretch {
        until: full,
        quiet: Quiet::Sounding,
    };
    let silent = Stretch {
        until: next,
        quiet: Quiet::Silent,
    };
    extend(quiet, full, sounding)?;
    extend(quiet, over, Stretch::none())?;
    extend(quiet, next, silent)?;
    Ok(())
}

/// Goes on up to a unit with units that are alike.
#[inline(always)]
fn extend(quiet: &mut Vec<Stretch>, next: u16, stretch: Stretch) -> Result<(), AllocError>
    ensures { OnOk result (IsFilled next stretch quiet.old.items quiet.new.items) }
{
    if quiet.len() < usize::from(next) {
        quiet.resize(usize::from(next), stretch)
    } else {
        Ok(())
    }
}
