ghost use Rattle.std.specs.Prelude.{◌≡◌};

use std::marker::Model;

/// The parts of an unequal cut, first to last: the size of each part and its symbol. A part has its size over the sum of
/// all sizes of the whole.
#[derive(Drop)]
pub struct Portions {
    parts: Vec<(u8, u8)>,
}

impl Model for Portions {
    ghost use Rattle.std.specs.Prelude.{ℕ, List};

    ghost Value = { List (ℕ × ℕ) };

    ghost view = { λ l. l.parts.items };
}

impl Portions {
    /// The sizes and symbols as they stand in the rule.
    pub fn of(parts: Vec<(u8, u8)>) -> Portions
        ensures { result ≡ parts.items }
    {
        Portions { parts }
    }

    /// The sizes and symbols, first to last.
    pub fn as_slice(&self) -> &[(u8, u8)]
        ensures { result.now ≡ self.now }
    {
        self.parts.as_slice()
    }
}
