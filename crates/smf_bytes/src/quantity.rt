ghost use Rattle.smf_bytes.specs.Quantity.{quantity_bytes};
ghost use Rattle.smf_bytes.specs.declared.quantity.TheConstants.{GREATEST_QUANTITY};
ghost use Rattle.std.specs.Prelude.{◌≡◌, ◌++◌, ◌≤◌, ◌↔◌, IfSome, IsSome, OnOk};

use std::alloc::AllocError;
use std::marker::Model;

/// The greatest quantity, of four bytes.
pub const GREATEST_QUANTITY: u64 = 268_435_455;

/// A number of ticks that a file can write as a quantity: 0 to 268,435,455. A contract sees it as the number.
#[derive(Clone, Copy, PartialEq, Eq)]
pub struct Quantity {
    count: u64,
}

impl Model for Quantity {
    ghost use Rattle.smf_bytes.specs.declared.quantity.TheConstants.{GREATEST_QUANTITY};
    ghost use Rattle.std.specs.Prelude.{ℕ, ◌≤◌};

    ghost Value = { ℕ };

    ghost view = { λ q. q.count };

    ghost invariant = { λ q. q.count ≤ GREATEST_QUANTITY };

    ghost inverse = { λ n. record { count = n } };
}

impl Quantity {
    /// This number of ticks.
    #[inline(always)]
    pub fn of(count: u64) -> Quantity
        requires { count ≤ GREATEST_QUANTITY }
        ensures { result ≡ count }
    {
        Quantity { count }
    }

    /// This number of ticks, where it is no greater than a quantity can be.
    #[inline(always)]
    pub fn new(count: u64) -> Option<Quantity>
        ensures within { IsSome result ↔ (count ≤ GREATEST_QUANTITY) }
        ensures is { IfSome result (λ q. q ≡ count) }
    {
        if count <= GREATEST_QUANTITY {
            Some(Quantity { count })
        } else {
            None
        }
    }

    /// The number.
    #[inline(always)]
    pub fn count(self) -> u64
        ensures is { result ≡ self }
        ensures few { result ≤ GREATEST_QUANTITY }
    {
        self.count
    }
}

/// Appends a quantity in its shortest form.
#[tactic(auto, using(crate::proofs::ShortForms::one_byte, crate::proofs::ShortForms::two_bytes, crate::proofs::ShortForms::three_bytes, crate::proofs::ShortForms::four_bytes))]
pub(crate) fn push_quantity(bytes: &mut Vec<u8>, quantity: Quantity) -> Result<(), AllocError>
    ensures { OnOk result (bytes.new.items ≡ bytes.old.items ++ quantity_bytes quantity) }
{
    let number = quantity.count();
    let lowest = (number % 128) as u8;
    let low = 128 + (number / 128 % 128) as u8;
    let high = 128 + (number / 16384 % 128) as u8;
    let highest = 128 + (number / 2097152 % 128) as u8;
    match number {
        0..128 => Ok(bytes.push(lowest)?),
        128..16384 => bytes.extend_from_slice(&[low, lowest]),
        16384..2097152 => bytes.extend_from_slice(&[high, low, lowest]),
        _ => bytes.extend_from_slice(&[highest, high, low, lowest]),
    }
}
