ghost use Rattle.derivation.specs.Score.{IsScore};
ghost use Rattle.derivation.specs.WellSounded.{AreWellSounded};
ghost use Rattle.rhythm_base.specs.Signatures.{IsSignature};
ghost use Rattle.rhythm_base.specs.declared.limits.TheConstants.{MOST_BARS};
ghost use Rattle.voice_events.specs.Events.{AddsEventsOf, AreScoreEvents, HaveSignatures, span_event};
ghost use Rattle.std.specs.Prelude.{◌≡◌, ◌≤◌, ◌++◌, All, IfOk, OnOk, length, map};

use crate::event::KernEvent;
use derivation::{Score, ScoreBar, VoiceSounds, spans_of};
use rhythm_base::{Bar, Span, Units};
use std::alloc::{AllocError, Global};

/// Bars of the signatures of a score. Where they start is not asked of them: spans are counted in whole notes.
fn bars_of(alloc: Global, bars: &[ScoreBar]) -> Result<Vec<Bar>, AllocError>
    ensures { IfOk result (λ v. HaveSignatures bars.now v.items) }
{
    let mut all = Vec::with_capacity(alloc, bars.len())?;
    'bars: for bar in bars {
        all.push(Bar {
            start: 0,
            num: bar.num,
            den: bar.den,
        })?;
    }
    Ok(all)
}

/// Appends spans as events of a spine.
fn push_spans(events: &mut Vec<KernEvent>, spine: u8, spans: Vec<Span>) -> Result<(), AllocError>
    ensures { OnOk result (events.new.items ≡ events.old.items ++ map (span_event spine) spans.items) }
{
    events.reserve(spans.len())?;
    'spans: for span in spans {
        events.push(KernEvent { spine, span })?;
    }
    Ok(())
}

/// Appends the events of a voice.
fn push_voice(
    alloc: Global,
    events: &mut Vec<KernEvent>,
    spine: u8,
    voice: &VoiceSounds,
    bars: &[Bar],
    resolution: Units,
) -> Result<(), AllocError>
    requires sounds { AreWellSounded resolution (length bars.now) voice.now }
    requires few_bars { length bars.now ≤ MOST_BARS }
    requires signatures { All (λ b. IsSignature b.num b.den) bars.now }
    ensures { OnOk result (AddsEventsOf voice.now spine resolution bars.now events.old events.new) }
{
    let sounds = voice.sounds(alloc)?;
    let spans = spans_of(alloc, sounds.as_slice(), bars, resolution.count())?;
    push_spans(events, spine, spans)
}

/// The events of a score, by spine and then by start: the sounding spans of its voices, which are numbered from 1.
pub fn events_of(alloc: Global, score: &Score) -> Result<Vec<KernEvent>, AllocError>
    requires score { IsScore score.now }
    requires few_bars { length score.now.bars ≤ MOST_BARS }
    ensures { IfOk result (λ v. AreScoreEvents score.now v.items) }
{
    let bars = bars_of(alloc, &score.bars)?;
    let units = score.units();
    let mut events = Vec::new(alloc);
    'voices: for (number, voice) in score.voices.iter().enumerate() {
        push_voice(alloc, &mut events, number as u8 + 1, voice, &bars, units)?;
    }
    Ok(events)
}
