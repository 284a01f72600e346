ghost use Rattle.derivation.specs.SpanLists.{AddsSpansOf, span_of};
ghost use Rattle.derivation.specs.WellSounded.{AreWellSounded};
ghost use Rattle.rhythm_base.specs.Signatures.{IsSignature};
ghost use Rattle.durations.specs.Spans.{AreSpans, place_of, sound_length};
ghost use Rattle.rhythm_base.specs.declared.limits.TheConstants.{MOST_BARS, MOST_UNITS};
ghost use Rattle.rhythm_base.specs.declared.span.Span.{Span};
ghost use Rattle.std.specs.Prelude.{List, ◌∷◌, ◌≡◌, ◌+◌, ◌++◌, ◌^◌, ◌<◌, ◌≤◌, All, IfOk, OnOk, length, sum_by};

use crate::kind::{begins_chord, is_short};
use crate::parts::{frac, sound_length, ties_length};
use rhythm_base::{Bar, Frac, Graces, Sound, Span, Units};
use std::alloc::{AllocError, Global};

/// How many of the sounds begin a chord.
fn begun_count(sounds: &[Sound]) -> usize
    ensures { result ≤ length sounds.now }
{
    sounds
        .iter()
        .filter(|sound| begins_chord(sound.kind))
        .count()
}

/// The sounding spans of a voice, in order: each chord from its beginning over the ties after it, across barlines. The
/// sounds are those of a derivation over these bars of `resolution` units each.
pub fn spans_of(
    alloc: Global,
    sounds: &[Sound],
    bars: &[Bar],
    resolution: u16,
) -> Result<Vec<Span>, AllocError>
    requires sounds { AreWellSounded resolution (length bars.now) sounds.now }
    requires some_unit { 1 ≤ resolution }
    requires few_units { resolution ≤ MOST_UNITS }
    requires few_bars { length bars.now ≤ MOST_BARS }
    requires signatures { All (λ b. IsSignature b.num b.den) bars.now }
    ensures spans { IfOk result (λ v. AreSpans resolution bars.now sounds.now v.items) }
{
    let units = Units::of(resolution);
    let mut spans = Vec::with_capacity(alloc, begun_count(sounds))?;
    let mut later = sounds;
    let mut place = 0;
    'sounds: while let [sound, after @ ..] = later {
        push_run(alloc, bars, sound, after, place, units, &mut spans)?;
        place += sound_length(bars, sound);
        later = after;
    }
    Ok(spans)
}

/// Appends the span of the chord that begins with this sound, at so many parts of the score, where one begins.
fn push_run(
    alloc: Global,
    bars: &[Bar],
    sound: &Sound,
    after: &[Sound],
    place: u64,
    resolution: Units,
    spans: &mut Vec<Span>,
) -> Result<(), AllocError>
    requires signatures { All (λ b. IsSignature b.num b.den) bars.now }
    requires place { place ≡ place_of resolution bars.now sound.now }
    requires small { sound_length bars.now sound.now + sum_by (sound_length bars.now) after.now < 2 ^ 64 }
    ensures { OnOk result (AddsSpansOf sound.now after.now resolution bars.now spans.old spans.new) }
{
    if !begins_chord(sound.kind) {
        return Ok(());
    }
    let length = sound_length(bars, sound) + ties_length(bars, after);
    let start = frac(place, resolution);
    spans.push(span_of(alloc, sound, start, frac(length, resolution))?)?;
    Ok(())
}

/// The span of a chord that begins with this sound.
fn span_of(alloc: Global, sound: &Sound, start: Frac, len: Frac) -> Result<Span, AllocError>
    ensures { IfOk result (λ x. x ≡ span_of sound.now start len) }
{
    let graces = Graces::of(Vec::from_slice(alloc, sound.graces.as_slice())?);
    Ok(Span {
        start,
        len,
        keys: sound.keys,
        graces,
        short: is_short(sound.kind),
    })
}
