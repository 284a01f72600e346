ghost use Rattle.std.specs.Int.{bit_at};
ghost use Rattle.std.specs.Prelude.{◌≡◌, ◌<◌, ◌≤◌, ◌-◌, ◌↔◌, ◌^◌, ℕ, bit_or, IsBitSet, IsTrue};

use std::marker::Model;

/// A set of keys, as a chord or a rest has it: MIDI key numbers 0 to 127, where 60 is middle C. A contract sees the
/// number whose bits are the keys.
#[derive(Clone, Copy, Debug, PartialEq, Eq)]
pub struct Keys {
    bits: u128,
}

impl Model for Keys {
    ghost use Rattle.std.specs.Prelude.{ℕ};

    ghost Value = { ℕ };

    ghost view = { λ k. k.bits };

    ghost inverse = { λ n. record { bits = n } };
}

/// The place of the lowest bit of a number that is 1, 128 where there is none.
fn lowest_bit(bits: u128) -> u8
    ensures few { result ≤ 128 }
    ensures below { (k : ℕ) → k < result → bit_at bits k ≡ 0 }
    ensures first { result < 128 → bit_at bits result ≡ 1 }
{
    bits.trailing_zeros() as u8
}

/// The place after the highest bit of a number that is 1, 0 where there is none.
fn end_of_bits(bits: u128) -> u8
    ensures few { result ≤ 128 }
    ensures above { (k : ℕ) → result ≤ k → bit_at bits k ≡ 0 }
    ensures last { 0 < result → bit_at bits (result - 1) ≡ 1 }
{
    (128 - bits.leading_zeros()) as u8
}

impl Keys {
    /// The empty set, which a rest has.
    pub fn none() -> Keys
        ensures { result ≡ 0 }
    {
        Keys { bits: 0 }
    }

    /// The set of one key.
    pub fn one(key: u8) -> Keys
        requires { key < 128 }
        ensures { result ≡ 2 ^ key }
    {
        Keys { bits: 1u128 << key }
    }

    /// The keys that are in either set.
    pub fn join(self, other: Keys) -> Keys
        ensures { result ≡ bit_or self other }
    {
        Keys {
            bits: self.bits | other.bits,
        }
    }

    /// The lowest key of the set, 128 where there is none.
    pub fn lowest(self) -> u8
        ensures few { result ≤ 128 }
        ensures below { (k : ℕ) → k < result → bit_at self k ≡ 0 }
        ensures first { result < 128 → bit_at self result ≡ 1 }
    {
        lowest_bit(self.bits)
    }

    /// The key after the highest of the set, 0 where there is none.
    pub fn end(self) -> u8
        ensures few { result ≤ 128 }
        ensures above { (k : ℕ) → result ≤ k → bit_at self k ≡ 0 }
        ensures last { 0 < result → bit_at self (result - 1) ≡ 1 }
    {
        end_of_bits(self.bits)
    }

    /// Whether the key is in the set.
    pub fn has(self, key: u8) -> bool
        requires { key < 128 }
        ensures { IsTrue result ↔ IsBitSet self key }
    {
        self.bits & (1u128 << key) != 0
    }
}
