ghost use Rattle.rhythm_base.specs.declared.limits.TheConstants.{MOST_UNITS};
ghost use Rattle.std.specs.Prelude.{◌≡◌, ◌≤◌, ◌↔◌, IfSome, IsSome};

use crate::limits::MOST_UNITS;
use std::marker::Model;

/// How many units a bar has, the resolution of a grammar: 1 to 960. A contract sees it as the number.
#[derive(Clone, Copy, PartialEq, Eq)]
pub struct Units {
    count: u16,
}

impl Model for Units {
    ghost use Rattle.rhythm_base.specs.declared.limits.TheConstants.{MOST_UNITS};
    ghost use Rattle.std.specs.Prelude.{ℕ, ◌≤◌};

    ghost Value = { ℕ };

    ghost view = { λ u. u.count };

    ghost invariant = { λ u. (1 ≤ u.count) × (u.count ≤ MOST_UNITS) };

    ghost inverse = { λ n. record { count = n } };
}

impl Units {
    /// This number of units.
    #[inline(always)]
    pub fn of(count: u16) -> Units
        requires some { 1 ≤ count }
        requires few { count ≤ MOST_UNITS }
        ensures { result ≡ count }
    {
        Units { count }
    }

    /// This number of units, where a bar can have so many.
    #[inline(always)]
    pub fn new(count: u16) -> Option<Units>
        ensures within { IsSome result ↔ ((1 ≤ count) × (count ≤ MOST_UNITS)) }
        ensures is { IfSome result (λ u. u ≡ count) }
    {
        if (1..=MOST_UNITS).contains(&count) {
            Some(Units { count })
        } else {
            None
        }
    }

    /// The number.
    #[inline(always)]
    pub fn count(self) -> u16
        ensures is { result ≡ self }
        ensures some { 1 ≤ result }
        ensures few { result ≤ MOST_UNITS }
    {
        self.count
    }
}
