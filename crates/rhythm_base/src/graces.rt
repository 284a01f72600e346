ghost use Rattle.std.specs.Prelude.{◌≡◌};

use crate::keys::Keys;
use std::marker::Model;

/// The grace chords before a main note, first to last, each as its set of keys.
#[derive(Drop)]
pub struct Graces {
    chords: Vec<Keys>,
}

impl Model for Graces {
    ghost use Rattle.std.specs.Prelude.{ℕ, List};

    ghost Value = { List ℕ };

    ghost view = { λ l. l.chords.items };
}

impl Graces {
    /// The grace chords in their order.
    pub fn of(chords: Vec<Keys>) -> Graces
        ensures { result ≡ chords.items }
    {
        Graces { chords }
    }

    /// The grace chords, first to last.
    pub fn as_slice(&self) -> &[Keys]
        ensures { result.now ≡ self.now }
    {
        self.chords.as_slice()
    }
}
