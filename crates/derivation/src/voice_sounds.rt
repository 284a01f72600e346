ghost use Rattle.std.specs.Prelude.{◌≡◌, ◌∷◌, ◌++◌, [], IfOk, OnOk};

use crate::ahead::SoundsAhead;
use crate::held_sounds::HeldSounds;
use crate::lent::LentSounds;
use rhythm_base::Sound;
use std::alloc::{AllocError, Global};
use std::marker::Model;

/// How many sounds of a voice stand side by side, before those that are held otherwise.
const MOST_PLAIN: usize = 32_768;

/// The sounds of a voice, bar after bar. In a voice of very many sounds most are rests and ties, since a performance has few notes in
/// comparison: after the first ones, a sound in the bar of the one before it and with its keys, as a tie, or with none, as a rest,
/// takes a few bytes.
#[derive(Drop)]
pub struct VoiceSounds {
    plain: Vec<Sound>,
    later: HeldSounds,
}

impl Model for VoiceSounds {
    ghost use Rattle.std.specs.Prelude.{List, ◌++◌};
    ghost use Rattle.rhythm_base.specs.declared.sound.Sound.{Sound};

    ghost Value = { List Sound };

    ghost view = { λ v. v.plain.items ++ v.later };
}

impl VoiceSounds {
    /// The sounds of a voice in their order.
    pub fn of(alloc: Global, sounds: Vec<Sound>) -> VoiceSounds
        ensures { result ≡ sounds.items }
    {
        VoiceSounds {
            plain: sounds,
            later: HeldSounds::new(alloc),
        }
    }

    /// No sounds yet, with room for so many.
    pub fn with_capacity(alloc: Global, count: usize) -> Result<VoiceSounds, AllocError>
        ensures { IfOk result (λ v. v ≡ []) }
    {
        Ok(VoiceSounds {
            plain: Vec::with_capacity(alloc, count.min(MOST_PLAIN))?,
            later: HeldSounds::with_capacity(alloc, count.saturating_sub(MOST_PLAIN))?,
        })
    }

    /// Appends a sound.
    pub fn push(&mut self, sound: Sound) -> Result<(), AllocError>
        ensures { OnOk result (self.new ≡ self.old ++ sound ∷ []) }
    {
        if self.later.is_empty() && self.plain.len() < MOST_PLAIN {
            Ok(self.plain.push(sound)?)
        } else {
            self.later.push(sound)
        }
    }

    /// The sounds from the first one on.
    pub fn ahead<'a>(&'a self) -> SoundsAhead<'a>
        ensures { result ≡ self.entry.now }
    {
        self.later.ahead(&self.plain)
    }

    /// All sounds, first to last, made anew.
    fn made(&self, alloc: Global) -> Result<Vec<Sound>, AllocError>
        ensures { IfOk result (λ v. v.items ≡ self.now) }
    {
        let count = self.plain.len().saturating_add(self.later.most());
        let mut sounds = Vec::with_capacity(alloc, count)?;
        self.ahead().push_all(alloc, &mut sounds)?;
        Ok(sounds)
    }

    /// All sounds, first to last.
    pub fn sounds<'a>(&'a self, alloc: Global) -> Result<LentSounds<'a>, AllocError>
        ensures { IfOk result (λ sounds. sounds ≡ self.entry.now) }
    {
        if self.later.is_empty() {
            Ok(LentSounds::of(alloc, &self.plain))
        } else {
            Ok(LentSounds::made(self.made(alloc)?))
        }
    }

    /// All sounds, first to last.
    pub(crate) fn into_sounds(self, alloc: Global) -> Result<Vec<Sound>, AllocError>
        ensures { IfOk result (λ v. v.items ≡ self) }
    {
        if self.later.is_empty() {
            Ok(self.plain)
        } else {
            self.made(alloc)
        }
    }
}
