ghost use Rattle.rhythm_base.specs.declared.limits.TheConstants.{MOST_CARRIED};
ghost use Rattle.std.specs.Prelude.{◌≡◌, ◌≤◌, ◌<◌, ◌↔◌, IfSome, IsSome};

use crate::limits::MOST_CARRIED;
use std::marker::Model;

/// How many chords are carried over a border, out of what stands before it and into what stands after it: 0 to 4. A
/// contract sees it as the number.
#[derive(Clone, Copy, PartialEq, Eq)]
pub struct Carry {
    count: u8,
}

impl Model for Carry {
    ghost use Rattle.std.specs.Prelude.{ℕ, ◌<◌};

    ghost Value = { ℕ };

    ghost view = { λ c. c.count };

    ghost invariant = { λ c. c.count < 5 };

    ghost inverse = { λ n. record { count = n } };
}

impl Carry {
    /// This number of chords.
    #[inline(always)]
    pub fn of(count: u8) -> Carry
        requires { count < 5 }
        ensures { result ≡ count }
    {
        Carry { count }
    }

    /// This number of chords, where so many can be carried.
    #[inline(always)]
    pub fn new(count: u8) -> Option<Carry>
        ensures within { IsSome result ↔ (count ≤ MOST_CARRIED) }
        ensures is { IfSome result (λ c. c ≡ count) }
    {
        if count <= MOST_CARRIED {
            Some(Carry { count })
        } else {
            None
        }
    }

    /// No chord.
    #[inline(always)]
    pub fn none() -> Carry
        ensures { result ≡ 0 }
    {
        Carry { count: 0 }
    }

    /// The number.
    #[inline(always)]
    pub fn count(self) -> u8
        ensures is { result ≡ self }
        ensures within { result < 5 }
    {
        self.count
    }

    /// The place of the number among the five.
    #[inline(always)]
    pub fn index(self) -> usize
        ensures is { result ≡ self }
        ensures within { result < 5 }
    {
        self.count as usize
    }
}
