ghost use Rattle.voice_values.specs.GoesOn as definitions;
ghost use Rattle.voice_values.specs.Values as values;
ghost use Rattle.derivation.specs.Score.{IsScoreBar};
ghost use Rattle.voice_values.specs.Values.{AreBarValues, timed, values_of_sounds};
ghost use Rattle.rhythm_base.specs.SoundKinds.{is_rest, is_short};
ghost use Rattle.std.specs.Prelude.{◌≡◌, ◌≤◌, ◌<◌, All, IfOk, OnOk, None, if◌then◌else◌, [], length, map, sum};
ghost use Rattle.durations.specs.declared.joined.Written.{Written};

use derivation::ScoreBar;
use durations::{Timed, Value, Written, values_of};
use rhythm_base::{Keys, Sound, SoundKind, Units};
use std::alloc::{AllocError, Global};
use std::marker::Model;

/// A value of a voice: what a token of its column is written of.
#[derive(Drop)]
pub struct VoiceValue<'a> {
    /// Where in its bar it begins, in parts of 1/(resolution * den) of a whole note.
    pub place: u64,
    pub value: Value,
    /// The leaf that it is a value of: the first one where several are joined.
    pub sound: &'a Sound,
    /// Whether it is that leaf's first value.
    pub first: bool,
}

impl<'a> Model for VoiceValue<'a> {
    ghost use Rattle.voice_values.specs.Values as values;
    ghost use Rattle.voice_values.specs.Values.{VoiceValue};

    ghost Value = { VoiceValue };

    ghost view = { λ v. record { place = v.place; value = v.value; sound = v.sound.now; first = v.first } };
}

impl<'a> VoiceValue<'a> {
    /// Whether it goes on with the span of the value before it.
    pub fn goes_on(&self) -> bool
        ensures { result ≡ definitions.goes_on self.now }
    {
        match self.sound.kind {
            SoundKind::Rest => false,
            SoundKind::Tie => true,
            SoundKind::Begin | SoundKind::Short => !self.first,
        }
    }

    /// The grace chords before it.
    pub fn graces(&self) -> &[Keys]
        ensures { result.now ≡ (if self.now.first then self.now.sound.graces else []) }
    {
        if self.first {
            self.sound.graces.as_slice()
        } else {
            &[]
        }
    }
}

/// A leaf as long as it is written in its bar.
fn timed(bar: &ScoreBar, sound: &Sound) -> Timed
    ensures { result ≡ timed bar.now sound.now }
{
    Timed {
        len: u64::from(sound.width) * u64::from(bar.num),
        kind: sound.kind,
    }
}

/// The leaves of a bar as long as they are written.
fn timed_sounds(alloc: Global, bar: &ScoreBar, sounds: &[Sound]) -> Result<Vec<Timed>, AllocError>
    ensures { IfOk result (λ v. v.items ≡ map (timed bar.now) sounds.now) }
{
    sounds.iter().map(|sound| timed(bar, sound)).collect(alloc)
}

/// Whether the value before is not one of the same leaf.
fn is_first(before: Option<u32>, leaf: u32) -> bool
    ensures { result ≡ values.is_first before leaf }
{
    match before {
        None => true,
        Some(other) => other != leaf,
    }
}

/// The values that are written for the sounds of a bar.
fn values_for<'a>(
    alloc: Global,
    sounds: &'a [Sound],
    written: &[Written],
) -> Result<Vec<VoiceValue<'a>>, AllocError>
    requires { All (λ w. w.leaf < length sounds.now) written.now }
    ensures { IfOk result (λ v. v.items ≡ values_of_sounds sounds.entry.now None written.now) }
{
    let mut values = Vec::with_capacity(alloc, written.len())?;
    let mut before = None;
    'written: for value in written {
        values.push(VoiceValue {
            place: value.from,
            value: value.value,
            sound: &sounds[value.leaf as usize],
            first: is_first(before, value.leaf),
        })?;
        before = Some(value.leaf);
    }
    Ok(values)
}

/// The values of the sounds of a bar, which fill it, in their order: those whose tokens stand in the column of a voice.
pub fn bar_values<'a>(
    alloc: Global,
    resolution: Units,
    bar: &ScoreBar,
    sounds: &'a [Sound],
) -> Result<Vec<VoiceValue<'a>>, AllocError>
    requires bar { IsScoreBar bar.now }
    requires some { All (λ s. 1 ≤ s.width) sounds.now }
    requires full { sum (map (λ s. s.width) sounds.now) ≡ resolution }
    ensures { IfOk result (λ v. AreBarValues resolution bar.now sounds.entry.now v.items) }
{
    let timed = timed_sounds(alloc, bar, sounds)?;
    let whole = u64::from(resolution.count()) * u64::from(bar.den);
    let written = values_of(alloc, &timed, whole)?;
    values_for(alloc, sounds, &written)
}
