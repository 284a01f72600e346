ghost use Rattle.notation.specs.Spelling as definitions;
ghost use Rattle.rhythm_base.specs.declared.limits.TheConstants.{MOST_UNITS};
ghost use Rattle.std.specs.Prelude.{◌≡◌, ◌≤◌};

use durations::Grid;
use std::marker::Model;

/// How the notes of a group are spelled: so many parts are one of the grid, and so many of the grid a whole note.
#[derive(Clone, Copy)]
pub(crate) struct Spelling {
    grid: u64,
    whole: Grid,
}

impl Model for Spelling {
    ghost use Rattle.notation.specs.Spelling as definitions;
    ghost use Rattle.rhythm_base.specs.declared.limits.TheConstants.{MOST_UNITS};
    ghost use Rattle.std.specs.Prelude.{◌≤◌};

    ghost Value = { definitions.Spelling };

    ghost view = { λ s. record { grid = s.grid; whole = s.whole } };

    ghost invariant = { λ s. (1 ≤ s.grid) × (s.grid ≤ MOST_UNITS) };

    ghost inverse = { λ v. record { grid = v.grid; whole = v.whole } };
}

impl Spelling {
    /// So many parts in one of the grid, and so many of the grid in a whole note.
    pub(crate) fn of(grid: u64, whole: Grid) -> Spelling
        requires some { 1 ≤ grid }
        requires few { grid ≤ MOST_UNITS }
        ensures { result ≡ record { grid = grid; whole = whole } }
    {
        Spelling { grid, whole }
    }

    /// How many parts are one of the grid.
    #[inline(always)]
    pub(crate) fn grid(self) -> u64
        ensures is { result ≡ self.grid }
        ensures some { 1 ≤ result }
        ensures few { result ≤ MOST_UNITS }
    {
        self.grid
    }

    /// How many parts of the grid are a whole note.
    #[inline(always)]
    pub(crate) fn whole(self) -> Grid
        ensures { result ≡ self.whole }
    {
        self.whole
    }
}
