ghost use Rattle.least_rows.specs.Parts.{carried_after};
ghost use Rattle.std.specs.Prelude.{◌≡◌, ◌≤◌};

/// The parts of a cut, in an interval of `width` units.
#[derive(Clone, Copy)]
pub struct Parts {
    /// Among the plan's parts: the first, and before the end.
    pub first: u32,
    pub end: u32,
    pub width: u16,
}

/// A way over the parts of a cut, from the unit `place` on.
#[derive(Clone, Copy)]
pub struct Leg {
    pub place: u16,
    /// The number of chords carried into the first part.
    pub from: u8,
    /// The numbers of chords carried into the parts, as digits to the base 8.
    pub way: u64,
    /// The number of chords carried out of the last part.
    pub to: u8,
}

impl Leg {
    /// The number of chords carried out of a part that so many parts come after.
    #[inline(always)]
    pub fn carried_after(self, rest: u32) -> u8
        requires { rest ≤ 16 }
        ensures { result ≡ carried_after self.way self.to rest }
    {
        if rest == 0 {
            self.to
        } else {
            ((self.way >> (3 * (rest - 1))) % 8) as u8
        }
    }
}
