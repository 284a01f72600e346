ghost use Rattle.std.specs.Prelude.{◌≡◌, ◌≤◌, ◌↔◌, IfSome, IsSome};
ghost use Rattle.weight_learning.specs.declared.weights.TheConstants.{HEAVIEST_BIT};

use crate::weights::HEAVIEST_BIT;
use std::marker::Model;

/// What a rule costs more that is used half as often as another of its symbol: 1 to 10,000. A contract sees it as the number.
#[derive(Clone, Copy, PartialEq, Eq)]
pub struct Bit {
    weight: u32,
}

impl Model for Bit {
    ghost use Rattle.std.specs.Prelude.{ℕ, ◌≤◌};
    ghost use Rattle.weight_learning.specs.declared.weights.TheConstants.{HEAVIEST_BIT};

    ghost Value = { ℕ };

    ghost view = { λ b. b.weight };

    ghost invariant = { λ b. (1 ≤ b.weight) × (b.weight ≤ HEAVIEST_BIT) };

    ghost inverse = { λ n. record { weight = n } };
}

impl Bit {
    /// This weight.
    #[inline(always)]
    pub fn of(weight: u32) -> Bit
        requires some { 1 ≤ weight }
        requires few { weight ≤ HEAVIEST_BIT }
        ensures { result ≡ weight }
    {
        Bit { weight }
    }

    /// This weight, where a bit can cost so much.
    #[inline(always)]
    pub fn new(weight: u32) -> Option<Bit>
        ensures within { IsSome result ↔ ((1 ≤ weight) × (weight ≤ HEAVIEST_BIT)) }
        ensures is { IfSome result (λ b. b ≡ weight) }
    {
        if (1..=HEAVIEST_BIT).contains(&weight) {
            Some(Bit { weight })
        } else {
            None
        }
    }

    /// The weight.
    #[inline(always)]
    pub fn weight(self) -> u64
        ensures is { result ≡ self }
        ensures some { 1 ≤ result }
        ensures few { result ≤ HEAVIEST_BIT }
    {
        u64::from(self.weight)
    }
}
