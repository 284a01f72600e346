ghost use Rattle.derivation.specs.Sounds.{but_last};
ghost use Rattle.derivation.specs.TimedLeaves.{chords_after, chords_until, keys_after, sound_with, sounds_along};
ghost use Rattle.rhythm_base.specs.Leaves.{soundings};
ghost use Rattle.rhythm_base.specs.Line.{Rising};
ghost use Rattle.rhythm_base.specs.Lists.{last_of};
ghost use Rattle.rhythm_base.specs.SoundKinds.{is_rest};
ghost use Rattle.std.specs.List.{position};
ghost use Rattle.std.specs.Prelude.{◌≡◌, IfOk, if◌then◌else◌, length, map, nat_lt, unwrap_or};

use crate::leaf::TimedLeaf;
use crate::voice_sounds::VoiceSounds;
use rhythm_base::{Chord, Graces, Keys, Sound, SoundKind};
use std::alloc::{AllocError, Global};

/// What sounds in each leaf. The chords are read along the leaves: each takes those that are left up to its middle.
pub fn sounds_along(
    alloc: Global,
    leaves: &[TimedLeaf],
    chords: &[Chord],
) -> Result<VoiceSounds, AllocError>
    requires { Rising 0 (soundings chords.now) }
    ensures { IfOk result (λ v. v ≡ sounds_along 0 chords.now leaves.now) }
{
    let mut sounds = VoiceSounds::with_capacity(alloc, leaves.len())?;
    let mut later = chords;
    let mut latest = Keys::none();
    'leaves: for leaf in leaves {
        let (here, after) = split_after(later, leaf.middle);
        latest = keys_after(latest, here);
        sounds.push(sound_with(alloc, *leaf, here, latest)?)?;
        later = after;
    }
    Ok(sounds)
}

/// The chords that begin at the tick or before it, and those that begin after it.
fn split_after(chords: &[Chord], tick: u64) -> (&[Chord], &[Chord])
    requires { Rising 0 (soundings chords.now) }
    ensures until { result.0.now ≡ chords_until tick chords.now }
    ensures after { result.1.now ≡ chords_after tick chords.now }
{
    chords.split_at(count_until(chords, tick))
}

/// How many chords stand before the first that begins after the tick.
fn count_until(chords: &[Chord], tick: u64) -> usize
    ensures { result ≡ unwrap_or (position (λ c. nat_lt tick c.onset) chords.now) (length chords.now) }
{
    chords
        .iter()
        .position(|chord| chord.onset > tick)
        .unwrap_or(chords.len())
}

/// The keys of the latest chord, where `latest` are those of the chord before these.
fn keys_after(latest: Keys, here: &[Chord]) -> Keys
    ensures { result ≡ keys_after latest (last_of here.now) }
{
    match here {
        [] => latest,
        [.., chord] => chord.keys,
    }
}

/// What sounds in a leaf to which these chords are attached, where `latest` are the keys of the latest chord.
fn sound_with(
    alloc: Global,
    leaf: TimedLeaf,
    here: &[Chord],
    latest: Keys,
) -> Result<Sound, AllocError>
    ensures { IfOk result (λ s. s ≡ sound_with leaf here.now latest) }
{
    Ok(Sound {
        bar: leaf.bar,
        place: leaf.place,
        width: leaf.width,
        kind: leaf.kind,
        keys: sounding_keys(leaf.kind, latest),
        graces: grace_chords(alloc, here)?,
    })
}

/// A rest has no keys, and any other leaf those of the latest chord.
fn sounding_keys(kind: SoundKind, latest: Keys) -> Keys
    ensures { result ≡ (if is_rest kind then 0 else latest) }
{
    match kind {
        SoundKind::Rest => Keys::none(),
        SoundKind::Begin | SoundKind::Short | SoundKind::Tie => latest,
    }
}

/// The grace chords of a leaf: all but the last of the chords that are attached to it.
fn grace_chords(alloc: Global, here: &[Chord]) -> Result<Graces, AllocError>
    ensures { IfOk result (λ graces. graces ≡ map (λ c. c.keys) (but_last here.now)) }
{
    let mut graces = Vec::new(alloc);
    if let [before @ .., _main] = here {
        for chord in before {
            graces.push(chord.keys)?;
        }
    }
    Ok(Graces::of(graces))
}
