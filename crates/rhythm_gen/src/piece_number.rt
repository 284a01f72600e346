ghost use Rattle.rhythm_gen.specs.declared.piece_number.TheConstants.{GREATEST_NUMBER};
ghost use Rattle.std.specs.Prelude.{◌≡◌, ◌≤◌, ◌↔◌, IfSome, IsSome};

use std::marker::Model;

/// The greatest number of a piece.
pub const GREATEST_NUMBER: u32 = 65_534;

/// The number that a piece and its drill are made from: 0 to 65,534. A contract sees it as the number.
#[derive(Clone, Copy, PartialEq, Eq)]
pub struct PieceNumber {
    number: u32,
}

impl Model for PieceNumber {
    ghost use Rattle.rhythm_gen.specs.declared.piece_number.TheConstants.{GREATEST_NUMBER};
    ghost use Rattle.std.specs.Prelude.{ℕ, ◌≤◌};

    ghost Value = { ℕ };

    ghost view = { λ n. n.number };

    ghost invariant = { λ n. n.number ≤ GREATEST_NUMBER };

    ghost inverse = { λ n. record { number = n } };
}

impl PieceNumber {
    /// This number.
    #[inline(always)]
    pub fn of(number: u32) -> PieceNumber
        requires { number ≤ GREATEST_NUMBER }
        ensures { result ≡ number }
    {
        PieceNumber { number }
    }

    /// This number, where a piece can have it.
    #[inline(always)]
    pub fn new(number: u32) -> Option<PieceNumber>
        ensures within { IsSome result ↔ (number ≤ GREATEST_NUMBER) }
        ensures is { IfSome result (λ n. n ≡ number) }
    {
        if number <= GREATEST_NUMBER {
            Some(PieceNumber { number })
        } else {
            None
        }
    }

    /// The number.
    #[inline(always)]
    pub fn number(self) -> u32
        ensures is { result ≡ self }
        ensures within { result ≤ GREATEST_NUMBER }
    {
        self.number
    }
}
