ghost use Rattle.rhythm_base.specs.declared.limits.TheConstants.{MOST_WORKERS};
ghost use Rattle.std.specs.Prelude.{◌≡◌, ◌≤◌, ◌↔◌, IfSome, IsSome};

use crate::limits::MOST_WORKERS;
use std::marker::Model;

/// How many workers build cells side by side: 1 to 16. A contract sees it as the number.
#[derive(Clone, Copy, PartialEq, Eq)]
pub struct Workers {
    count: u32,
}

impl Model for Workers {
    ghost use Rattle.rhythm_base.specs.declared.limits.TheConstants.{MOST_WORKERS};
    ghost use Rattle.std.specs.Prelude.{ℕ, ◌≤◌};

    ghost Value = { ℕ };

    ghost view = { λ w. w.count };

    ghost invariant = { λ w. (1 ≤ w.count) × (w.count ≤ MOST_WORKERS) };

    ghost inverse = { λ n. record { count = n } };
}

impl Workers {
    /// This number of workers.
    #[inline(always)]
    pub fn of(count: u32) -> Workers
        requires some { 1 ≤ count }
        requires few { count ≤ MOST_WORKERS }
        ensures { result ≡ count }
    {
        Workers { count }
    }

    /// This number of workers, where so many can be asked for.
    #[inline(always)]
    pub fn new(count: u32) -> Option<Workers>
        ensures within { IsSome result ↔ ((1 ≤ count) × (count ≤ MOST_WORKERS)) }
        ensures is { IfSome result (λ w. w ≡ count) }
    {
        if (1..=MOST_WORKERS).contains(&count) {
            Some(Workers { count })
        } else {
            None
        }
    }

    /// The caller's thread alone.
    #[inline(always)]
    pub fn one() -> Workers
        ensures { result ≡ 1 }
    {
        Workers { count: 1 }
    }

    /// The number.
    #[inline(always)]
    pub fn count(self) -> u32
        ensures is { result ≡ self }
        ensures some { 1 ≤ result }
        ensures few { result ≤ MOST_WORKERS }
    {
        self.count
    }
}
