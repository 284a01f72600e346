ghost use Rattle.durations.specs.declared.grid.TheConstants.{MOST_GRID};
ghost use Rattle.std.specs.Prelude.{◌≡◌, ◌≤◌, ◌↔◌, IfSome, IsSome};

use std::marker::Model;

/// The most equal parts of a whole note in which lengths count: 64 for each of the most units of a bar.
pub const MOST_GRID: u64 = 61_440;

/// In how many equal parts of a whole note lengths count: 1 to 61,440. A contract sees it as the number.
#[derive(Clone, Copy, PartialEq, Eq)]
pub struct Grid {
    count: u64,
}

impl Model for Grid {
    ghost use Rattle.durations.specs.declared.grid.TheConstants.{MOST_GRID};
    ghost use Rattle.std.specs.Prelude.{ℕ, ◌≤◌};

    ghost Value = { ℕ };

    ghost view = { λ g. g.count };

    ghost invariant = { λ g. (1 ≤ g.count) × (g.count ≤ MOST_GRID) };

    ghost inverse = { λ n. record { count = n } };
}

impl Grid {
    /// This number of parts.
    #[inline(always)]
    pub fn of(count: u64) -> Grid
        requires some { 1 ≤ count }
        requires few { count ≤ MOST_GRID }
        ensures { result ≡ count }
    {
        Grid { count }
    }

    /// This number of parts, where there can be so many.
    #[inline(always)]
    pub fn new(count: u64) -> Option<Grid>
        ensures within { IsSome result ↔ ((1 ≤ count) × (count ≤ MOST_GRID)) }
        ensures is { IfSome result (λ g. g ≡ count) }
    {
        if (1..=MOST_GRID).contains(&count) {
            Some(Grid { count })
        } else {
            None
        }
    }

    /// The number.
    #[inline(always)]
    pub fn count(self) -> u64
        ensures is { result ≡ self }
        ensures some { 1 ≤ result }
        ensures few { result ≤ MOST_GRID }
    {
        self.count
    }
}
