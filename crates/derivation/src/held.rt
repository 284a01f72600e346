ghost use Rattle.derivation.specs.HeldSounds.{IsAlike, alike, latest_of};
ghost use Rattle.derivation.specs.HeldSounds as definitions;
ghost use Rattle.rhythm_base.specs.SoundKinds.{is_rest};
ghost use Rattle.std.specs.Prelude.{◌≡◌, false, IfOk, if◌then◌else◌, true};

use rhythm_base::{Graces, Keys, Sound, SoundKind};
use std::alloc::{AllocError, Global};

/// A sound as it is held in a list of many.
#[derive(Clone, Copy, Debug, PartialEq, Eq)]
pub enum HeldSound {
    /// It is in the bar of the sound before it and has its keys, or none where it is a rest; no grace chords stand before it.
    Alike {
        place: u16,
        width: u16,
        kind: SoundKind,
    },
    /// It stands whole in another list: the next one there.
    Whole,
}

/// What the next sound may be alike in: the bar and the keys of the latest one.
#[derive(Clone, Copy, Debug, PartialEq, Eq)]
pub struct Latest {
    /// The bar, numbered from 0.
    pub bar: u32,
    pub keys: Keys,
}

impl Latest {
    /// Where there is no sound yet.
    pub fn first() -> Latest
        ensures { result ≡ definitions.first_latest }
    {
        Latest {
            bar: 0,
            keys: Keys::none(),
        }
    }

    /// The bar and the keys of a sound.
    pub fn of(sound: &Sound) -> Latest
        ensures { result ≡ latest_of sound.now }
    {
        Latest {
            bar: sound.bar,
            keys: sound.keys,
        }
    }

    /// The keys of a sound of this kind that is alike.
    fn keys_for(&self, kind: SoundKind) -> Keys
        ensures { result ≡ (if is_rest kind then 0 else self.now.keys) }
    {
        match kind {
            SoundKind::Rest => Keys::none(),
            SoundKind::Begin | SoundKind::Short | SoundKind::Tie => self.keys,
        }
    }

    /// Whether a sound is in the same bar, with the same keys or as a rest with none, and without grace chords.
    pub fn is_alike(&self, sound: &Sound) -> bool
        ensures alike { result ≡ true → IsAlike self.now sound.now }
        ensures other { result ≡ false → IsAlike self.now sound.now → ⊥ }
    {
        sound.bar == self.bar
            && sound.keys == self.keys_for(sound.kind)
            && sound.graces.as_slice().is_empty()
    }

    /// A sound that is alike.
    pub fn alike(&self, alloc: Global, place: u16, width: u16, kind: SoundKind) -> Sound
        ensures { result ≡ alike self.now place width kind }
    {
        Sound {
            bar: self.bar,
            place,
            width,
            kind,
            keys: self.keys_for(kind),
            graces: Graces::of(Vec::new(alloc)),
        }
    }
}

/// Another sound like this one.
pub fn copy_of(alloc: Global, sound: &Sound) -> Result<Sound, AllocError>
    ensures { IfOk result (λ s. s ≡ sound.now) }
{
    Ok(Sound {
        bar: sound.bar,
        place: sound.place,
        width: sound.width,
        kind: sound.kind,
        keys: sound.keys,
        graces: Graces::of(Vec::from_slice(alloc, sound.graces.as_slice())?),
    })
}
