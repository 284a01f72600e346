ghost use Rattle.rhythm_gen.specs.declared.piece_bars.TheConstants.{MOST_PIECE_BARS};
ghost use Rattle.std.specs.Prelude.{◌≡◌, ◌≤◌, ◌↔◌, IfSome, IsSome};

use std::marker::Model;

/// The most bars of a piece.
pub const MOST_PIECE_BARS: u32 = 2_000;

/// How many bars a piece has: 1 to 2,000. A contract sees it as the number.
#[derive(Clone, Copy, PartialEq, Eq)]
pub struct PieceBars {
    count: u32,
}

impl Model for PieceBars {
    ghost use Rattle.rhythm_gen.specs.declared.piece_bars.TheConstants.{MOST_PIECE_BARS};
    ghost use Rattle.std.specs.Prelude.{ℕ, ◌≤◌};

    ghost Value = { ℕ };

    ghost view = { λ b. b.count };

    ghost invariant = { λ b. (1 ≤ b.count) × (b.count ≤ MOST_PIECE_BARS) };

    ghost inverse = { λ n. record { count = n } };
}

impl PieceBars {
    /// This number of bars.
    #[inline(always)]
    pub fn of(count: u32) -> PieceBars
        requires some { 1 ≤ count }
        requires few { count ≤ MOST_PIECE_BARS }
        ensures { result ≡ count }
    {
        PieceBars { count }
    }

    /// This number of bars, where a piece can have so many.
    #[inline(always)]
    pub fn new(count: u32) -> Option<PieceBars>
        ensures within { IsSome result ↔ ((1 ≤ count) × (count ≤ MOST_PIECE_BARS)) }
        ensures is { IfSome result (λ b. b ≡ count) }
    {
        if (1..=MOST_PIECE_BARS).contains(&count) {
            Some(PieceBars { count })
        } else {
            None
        }
    }

    /// The number.
    #[inline(always)]
    pub fn count(self) -> u32
        ensures is { result ≡ self }
        ensures some { 1 ≤ result }
        ensures few { result ≤ MOST_PIECE_BARS }
    {
        self.count
    }
}
