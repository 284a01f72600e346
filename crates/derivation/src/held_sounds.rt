ghost use Rattle.derivation.specs.HeldSounds.{IsAlike, first_latest, latest_after};
ghost use Rattle.std.specs.Prelude.{◌≡◌, ◌∷◌, ◌++◌, [], IfOk, OnOk, true};

use crate::ahead::SoundsAhead;
use crate::held::{HeldSound, Latest};
use rhythm_base::Sound;
use std::alloc::{AllocError, Global};
use std::marker::Model;

/// Many sounds in their order: one that is in the bar of the one before it and has its keys, as a tie, or none, as a rest, takes a few
/// bytes.
#[derive(Drop)]
pub(crate) struct HeldSounds {
    held: Vec<HeldSound>,
    wholes: Vec<Sound>,
    latest: Latest,
}

impl Model for HeldSounds {
    ghost use Rattle.std.specs.Prelude.{List};
    ghost use Rattle.rhythm_base.specs.declared.sound.Sound.{Sound};
    ghost use Rattle.derivation.specs.HeldSounds.{AreHeld, first_latest, sounds_held};

    ghost Value = { List Sound };

    ghost view = { λ v. sounds_held first_latest v.held.items v.wholes.items };

    ghost invariant = { λ v. AreHeld v.held.items v.wholes.items v.latest };
}

impl HeldSounds {
    /// No sounds yet.
    pub(crate) fn new(alloc: Global) -> HeldSounds
        ensures { result ≡ [] }
    {
        HeldSounds {
            held: Vec::new(alloc),
            wholes: Vec::new(alloc),
            latest: Latest::first(),
        }
    }

    /// No sounds yet, with room for so many.
    pub(crate) fn with_capacity(alloc: Global, count: usize) -> Result<HeldSounds, AllocError>
        ensures { IfOk result (λ v. v ≡ []) }
    {
        Ok(HeldSounds {
            held: Vec::with_capacity(alloc, count)?,
            wholes: Vec::new(alloc),
            latest: Latest::first(),
        })
    }

    /// How many there are at most.
    pub(crate) fn most(&self) -> usize {
        self.held.len()
    }

    /// Whether there are none.
    pub(crate) fn is_empty(&self) -> bool
        ensures { result ≡ true → self.now ≡ [] }
    {
        self.held.is_empty()
    }

    /// Appends a sound that is alike to the one before it.
    fn push_alike(&mut self, sound: &Sound) -> Result<(), AllocError>
        requires { IsAlike (latest_after first_latest self.old) sound.now }
        ensures { OnOk result (self.new ≡ self.old ++ sound.now ∷ []) }
    {
        self.held.push(HeldSound::Alike {
            place: sound.place,
            width: sound.width,
            kind: sound.kind,
        })?;
        self.latest = Latest::of(sound);
        Ok(())
    }

    /// Appends a sound, which is held whole.
    fn push_whole(&mut self, sound: Sound) -> Result<(), AllocError>
        ensures { OnOk result (self.new ≡ self.old ++ sound ∷ []) }
    {
        let latest = Latest::of(&sound);
        self.held.reserve(1)?;
        self.wholes.push(sound)?;
        self.held.push(HeldSound::Whole).unwrap();
        self.latest = latest;
        Ok(())
    }

    /// Appends a sound.
    pub(crate) fn push(&mut self, sound: Sound) -> Result<(), AllocError>
        ensures { OnOk result (self.new ≡ self.old ++ sound ∷ []) }
    {
        if self.latest.is_alike(&sound) {
            self.push_alike(&sound)
        } else {
            self.push_whole(sound)
        }
    }

    /// These sounds after others.
    pub(crate) fn ahead<'a>(&'a self, plain: &'a [Sound]) -> SoundsAhead<'a>
        ensures { result ≡ plain.entry.now ++ self.entry.now }
    {
        SoundsAhead::of(plain, &self.held, &self.wholes)
    }
}
