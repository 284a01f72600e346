ghost use Rattle.performance_load.specs.Taking.{IsTakeFormed};
ghost use Rattle.performance_prepare.specs.Tempo.{fineness};
ghost use Rattle.rhythm_base.specs.declared.limits.TheConstants.{MOST_DIVISION};
ghost use Rattle.std.specs.Prelude.{◌≡◌, ◌≤◌, ◌*◌};

use performance_load::Take;
use std::marker::Model;

/// How many ticks a quarter note has: 1 to 32,767. A contract sees it as the number.
#[derive(Clone, Copy)]
pub struct Division {
    ticks: u16,
}

impl Model for Division {
    ghost use Rattle.rhythm_base.specs.declared.limits.TheConstants.{MOST_DIVISION};
    ghost use Rattle.std.specs.Prelude.{ℕ, ◌≤◌};

    ghost Value = { ℕ };

    ghost view = { λ d. d.ticks };

    ghost invariant = { λ d. (1 ≤ d.ticks) × (d.ticks ≤ MOST_DIVISION) };

    ghost inverse = { λ n. record { ticks = n } };
}

impl Division {
    /// That of a take.
    pub fn of(take: &Take) -> Division
        requires { IsTakeFormed take.now }
        ensures { result ≡ take.now.division }
    {
        Division {
            ticks: take.division,
        }
    }

    /// That of ticks which are so many times finer.
    pub fn finer(self, times: u64) -> Division
        requires { times ≡ fineness self }
        ensures { result ≡ self * times }
    {
        Division {
            ticks: (self.ticks() * times) as u16,
        }
    }

    /// The number.
    pub fn ticks(self) -> u64
        ensures is { result ≡ self }
        ensures some { 1 ≤ result }
        ensures few { result ≤ MOST_DIVISION }
    {
        u64::from(self.ticks)
    }
}
