ghost use Rattle.std.specs.Prelude.{◌≡◌, []};

use rhythm_base::Sound;
use std::alloc::Global;
use std::marker::Model;

/// Some sounds of a voice, side by side: lent by the voice where it has them so, and else made.
#[derive(Drop)]
pub struct LentSounds<'a> {
    lent: &'a [Sound],
    made: Vec<Sound>,
}

impl<'a> Model for LentSounds<'a> {
    ghost use Rattle.std.specs.Prelude.{List, [], ◌++◌, ◌≡◌, ◌⊎◌};
    ghost use Rattle.rhythm_base.specs.declared.sound.Sound.{Sound};

    ghost Value = { List Sound };

    ghost view = { λ s. s.lent.now ++ s.made.items };

    ghost invariant = { λ s. (s.lent.now ≡ []) ⊎ (s.made.items ≡ []) };
}

impl<'a> LentSounds<'a> {
    /// Sounds that are lent.
    pub fn of(alloc: Global, lent: &'a [Sound]) -> LentSounds<'a>
        ensures { result ≡ lent.entry.now }
    {
        LentSounds {
            lent,
            made: Vec::new(alloc),
        }
    }

    /// Sounds that are made.
    pub fn made(made: Vec<Sound>) -> LentSounds<'a>
        ensures { result ≡ made.items }
    {
        LentSounds { lent: &[], made }
    }

    /// The sounds, first to last.
    pub fn as_slice(&self) -> &[Sound]
        ensures { result.now ≡ self.now }
    {
        if self.made.is_empty() {
            self.lent
        } else {
            self.made.as_slice()
        }
    }
}
