ghost use Rattle.std.specs.Prelude.{◌≡◌};

use std::marker::Model;

/// The symbols of the equal parts of a split, from the first part to the last. A symbol is the number of a name.
#[derive(Drop)]
pub struct Kids {
    symbols: Vec<u8>,
}

impl Model for Kids {
    ghost use Rattle.std.specs.Prelude.{ℕ, List};

    ghost Value = { List ℕ };

    ghost view = { λ l. l.symbols.items };
}

impl Kids {
    /// The symbols as they stand in the rule.
    pub fn of(symbols: Vec<u8>) -> Kids
        ensures { result ≡ symbols.items }
    {
        Kids { symbols }
    }

    /// The symbols, first to last.
    pub fn as_slice(&self) -> &[u8]
        ensures { result.now ≡ self.now }
    {
        self.symbols.as_slice()
    }
}
