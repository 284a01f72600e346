ghost use Rattle.std.specs.Prelude.{◌≡◌, ◌≤◌, ◌%◌};

use std::marker::Model;

/// An odd number, as the odd part of a resolution. A contract sees it as the number.
#[derive(Clone, Copy)]
pub(crate) struct Odd {
    count: u64,
}

impl Model for Odd {
    ghost use Rattle.std.specs.Prelude.{ℕ, ◌≡◌, ◌%◌};

    ghost Value = { ℕ };

    ghost view = { λ n. n.count };

    ghost invariant = { λ n. n.count % 2 ≡ 1 };

    ghost inverse = { λ n. record { count = n } };
}

impl Odd {
    /// This number.
    #[inline(always)]
    pub(crate) fn of(count: u64) -> Odd
        requires { count % 2 ≡ 1 }
        ensures { result ≡ count }
    {
        Odd { count }
    }

    /// The number.
    #[inline(always)]
    pub(crate) fn count(self) -> u64
        ensures is { result ≡ self }
        ensures some { 1 ≤ result }
    {
        self.count
    }
}
