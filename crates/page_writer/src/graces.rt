ghost use Rattle.derivation.specs.WellSounded.{AreWellSounded};
ghost use Rattle.page_writer.specs.Writing.{AreRaised, start_graces};
ghost use Rattle.page_writer.specs.Graces as definitions;
ghost use Rattle.page_writer.specs.Graces.{most_in_bars};
ghost use Rattle.std.specs.Prelude.{◌≡◌, All, IfOk};

use crate::bar::first_graces;
use derivation::{ScoreBar, VoiceSounds};
use notation::Group;
use rhythm_base::{Sound, Units};
use score_words::{is_same_key, is_same_signature, key_before};
use std::alloc::{AllocError, Global};

/// How many grace chords stand before the first sound of each bar of a voice.
fn begun_graces(alloc: Global, sounds: &[Sound]) -> Result<Vec<usize>, AllocError>
    ensures { IfOk result (λ v. v.items ≡ start_graces sounds.now) }
{
    sounds
        .iter()
        .filter(|sound| sound.place == 0)
        .map(|sound| sound.graces.as_slice().len())
        .collect(alloc)
}

/// Raises each number to the one at its place in `own`, where that is greater.
fn raise(most: &mut [usize], own: &[usize])
    ensures { AreRaised most.old own.now most.new }
{
    'bars: for (number, count) in most.iter_mut().enumerate() {
        let other = own.get(number).copied().unwrap_or(0);
        *count = (*count).max(other);
    }
}

/// The most grace chords before the first sound of each of so many bars in any voice.
pub(crate) fn most_graces(
    alloc: Global,
    voices: &[VoiceSounds],
    resolution: Units,
    bars: usize,
) -> Result<Vec<usize>, AllocError>
    requires { All (AreWellSounded resolution bars) voices.now }
    ensures { IfOk result (λ v. v.items ≡ most_in_bars voices.now bars) }
{
    let mut most = vec![in alloc; 0; bars]?;
    'voices: for voice in voices {
        let sounds = voice.sounds(alloc)?;
        let own = begun_graces(alloc, sounds.as_slice())?;
        raise(&mut most, &own);
    }
    Ok(most)
}

/// Whether a key signature, or none, is the one before.
fn is_same_sf(before: Option<i8>, sf: Option<i8>) -> bool
    ensures { result ≡ definitions.is_same_sf before sf }
{
    match sf {
        Some(key) => is_same_key(before, key),
        None => before.is_none(),
    }
}

/// Whether the key or the signature of a bar is not that of the bar before.
fn is_said(before: Option<ScoreBar>, bar: &ScoreBar) -> bool
    ensures { result ≡ definitions.is_said before bar.now }
{
    !(is_same_signature(before, bar) && is_same_sf(key_before(before), bar.sf))
}

/// How many silent grace chords begin a bar of a voice, where some voice begins it with so many grace chords.
pub(crate) fn silent_graces(
    before: Option<ScoreBar>,
    bar: &ScoreBar,
    most: usize,
    groups: &[Group],
) -> usize
    ensures { result ≡ definitions.silent_graces before bar.now most groups.now }
{
    if is_said(before, bar) {
        most.saturating_sub(first_graces(groups).len())
    } else {
        0
    }
}
