ghost use Rattle.derivation.specs.Ahead.{later_sounds, own_sounds};
ghost use Rattle.derivation.specs.HeldSounds.{first_latest, sounds_held};
ghost use Rattle.std.specs.List.{prefix_len};
ghost use Rattle.std.specs.Prelude.{◌≡◌, ◌==◌, ◌++◌, IfOk, OnOk, drop, option_map, slice_get, take};

use crate::held::{HeldSound, Latest, copy_of};
use crate::lent::LentSounds;
use rhythm_base::{Sound, SoundKind};
use std::alloc::{AllocError, Global};
use std::marker::Model;

/// How many of the sounds are in the bar of this number, counted from 0, before one that is not.
pub fn own_count(sounds: &[Sound], number: usize) -> usize
    ensures { result ≡ prefix_len (λ s. s.bar == number) sounds.now }
{
    sounds
        .iter()
        .take_while(|sound| sound.bar as usize == number)
        .count()
}

/// The sounds of a voice from some sound on, of which each is made when it is read.
#[derive(Drop)]
pub struct SoundsAhead<'a> {
    /// Those that stand side by side, and before those that are held otherwise.
    plain: &'a [Sound],
    held: &'a [HeldSound],
    wholes: &'a [Sound],
    latest: Latest,
    /// How many sounds the bar had that was made last.
    count: usize,
}

impl<'a> Model for SoundsAhead<'a> {
    ghost use Rattle.std.specs.Prelude.{List, ◌++◌};
    ghost use Rattle.rhythm_base.specs.declared.sound.Sound.{Sound};
    ghost use Rattle.derivation.specs.HeldSounds.{sounds_held};

    ghost Value = { List Sound };

    ghost view = { λ a. a.plain.now ++ sounds_held a.latest a.held.now a.wholes.now };
}

impl<'a> SoundsAhead<'a> {
    /// The sounds that are held so.
    pub(crate) fn of(
        plain: &'a [Sound],
        held: &'a [HeldSound],
        wholes: &'a [Sound],
    ) -> SoundsAhead<'a>
        ensures { result ≡ plain.entry.now ++ sounds_held first_latest held.entry.now wholes.entry.now }
    {
        SoundsAhead {
            plain,
            held,
            wholes,
            latest: Latest::first(),
            count: 0,
        }
    }

    /// The bar of the next sound, numbered from 0; none after the last one.
    fn next_number(&self) -> Option<u32>
        ensures { result ≡ option_map (λ s. s.bar) (slice_get self.now 0) }
    {
        if let [sound, ..] = self.plain {
            return Some(sound.bar);
        }
        match self.held {
            [] => None,
            [HeldSound::Alike { .. }, ..] => Some(self.latest.bar),
            [HeldSound::Whole, ..] => self.wholes.first().map(|sound| sound.bar),
        }
    }

    /// How the next sound sounds; none after the last one.
    pub fn next_kind(&self) -> Option<SoundKind>
        ensures { result ≡ option_map (λ s. s.kind) (slice_get self.now 0) }
    {
        if let [sound, ..] = self.plain {
            return Some(sound.kind);
        }
        match self.held {
            [] => None,
            [HeldSound::Alike { kind, .. }, ..] => Some(*kind),
            [HeldSound::Whole, ..] => self.wholes.first().map(|sound| sound.kind),
        }
    }

    /// Appends the next sound, where there is one, and passes over it.
    fn push_next(&mut self, alloc: Global, sounds: &mut Vec<Sound>) -> Result<(), AllocError>
        ensures sound { OnOk result (sounds.new.items ≡ sounds.old.items ++ take 1 self.old) }
        ensures rest { OnOk result (self.new ≡ drop 1 self.old) }
    {
        if let [sound, later @ ..] = self.plain {
            self.plain = later;
            return Ok(sounds.push(copy_of(alloc, sound)?)?);
        }
        let [held, later @ ..] = self.held else {
            return Ok(());
        };
        let next = match held {
            HeldSound::Alike { place, width, kind } => self
                .latest
                .alike(alloc, *place, *width, *kind),
            HeldSound::Whole => {
                let [sound, after @ ..] = self.wholes else {
                    return Ok(());
                };
                self.wholes = after;
                copy_of(alloc, sound)?
            }
        };
        self.held = later;
        self.latest = Latest::of(&next);
        Ok(sounds.push(next)?)
    }

    /// Appends the sounds of the bar of this number, counted from 0, up to the first that is not of it, and passes over them.
    fn push_bar(
        &mut self,
        alloc: Global,
        number: usize,
        sounds: &mut Vec<Sound>,
    ) -> Result<(), AllocError>
        ensures own { OnOk result (sounds.new.items ≡ sounds.old.items ++ own_sounds number self.old) }
        ensures rest { OnOk result (self.new ≡ later_sounds number self.old) }
    {
        'sounds: while let Some(bar) = self.next_number() {
            if bar as usize != number {
                return Ok(());
            }
            self.push_next(alloc, sounds)?;
        }
        Ok(())
    }

    /// The sounds of the bar of this number, counted from 0, up to the first that is not of it. They are passed over.
    pub fn next_bar(&mut self, alloc: Global, number: usize) -> Result<LentSounds<'a>, AllocError>
        ensures own { IfOk result (λ own. own ≡ own_sounds number self.old) }
        ensures rest { OnOk result (self.new ≡ later_sounds number self.old) }
    {
        let count = own_count(self.plain, number);
        if count < self.plain.len() {
            let (own, later) = self.plain.split_at(count);
            self.plain = later;
            return Ok(LentSounds::of(alloc, own));
        }
        let mut sounds = Vec::with_capacity(alloc, self.count)?;
        self.push_bar(alloc, number, &mut sounds)?;
        self.count = sounds.len();
        Ok(LentSounds::made(sounds))
    }

    /// Appends all sounds that are left, and passes over them.
    pub(crate) fn push_all(
        &mut self,
        alloc: Global,
        sounds: &mut Vec<Sound>,
    ) -> Result<(), AllocError>
        ensures { OnOk result (sounds.new.items ≡ sounds.old.items ++ self.old) }
    {
        'bars: while let Some(bar) = self.next_number() {
            self.push_bar(alloc, bar as usize, sounds)?;
        }
        Ok(())
    }
}
