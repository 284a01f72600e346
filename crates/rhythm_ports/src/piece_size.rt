ghost use Rattle.std.specs.Prelude.{◌≡◌, ◌≤◌, max};

use std::marker::Model;

/// How many bytes a call moves at most: one or more. A contract sees it as the number.
#[derive(Clone, Copy, Debug)]
pub(crate) struct PieceSize {
    count: usize,
}

impl Model for PieceSize {
    ghost use Rattle.std.specs.Prelude.{ℕ, ◌≤◌};

    ghost Value = { ℕ };

    ghost view = { λ s. s.count };

    ghost invariant = { λ s. 1 ≤ s.count };

    ghost inverse = { λ n. record { count = n } };
}

impl PieceSize {
    /// This number of bytes, and one for none: a call that may move nothing would never come to an end.
    pub(crate) fn of(count: usize) -> PieceSize
        ensures { result ≡ max count 1 }
    {
        PieceSize {
            count: count.max(1),
        }
    }

    /// The number.
    pub(crate) fn count(self) -> usize
        ensures is { result ≡ self }
        ensures some { 1 ≤ result }
    {
        self.count
    }
}
