ghost use Rattle.derivation.specs.Score.{IsScoreBar};
ghost use Rattle.smf_writer.specs.Changes as definitions;
ghost use Rattle.smf_writer.specs.Changes.{changes_at, key_event, signature_event, tempo_event};
ghost use Rattle.voice_events.specs.Parts.{score_parts};
ghost use Rattle.std.specs.Prelude.{◌≡◌, ◌++◌, ◌<◌, ◌≤◌, ◌^◌, All, IfOk, OnOk, length};

use derivation::ScoreBar;
use rhythm_base::{Event, Units, What};
use score_words::{is_same_key, is_same_signature, key_before};
use std::alloc::{AllocError, Global};
use voice_events::score_bar_parts;

/// The tempo of a bar, where it differs.
fn tempo_change(before: Option<ScoreBar>, bar: &ScoreBar) -> Option<What>
    ensures { result ≡ tempo_event before bar.now }
{
    match before {
        Some(other) if other.tempo == bar.tempo => None,
        _ => Some(What::Tempo(bar.tempo)),
    }
}

/// The signature of a bar, where it differs. A file writes it with the power of two that its beat is.
fn signature_change(before: Option<ScoreBar>, bar: &ScoreBar) -> Option<What>
    ensures { result ≡ signature_event before bar.now }
{
    if is_same_signature(before, bar) {
        return None;
    }
    Some(What::Signature {
        num: bar.num,
        dd: bar.den.trailing_zeros() as u8,
    })
}

/// The key of a bar, where it has one and that differs.
fn key_change(before: Option<i8>, key: Option<i8>) -> Option<What>
    ensures { result ≡ key_event before key }
{
    match key {
        Some(sf) if !is_same_key(before, sf) => Some(What::KeySig(sf)),
        _ => None,
    }
}

/// Appends what changes at the barline at a tick.
fn push_changes(
    events: &mut Vec<Event>,
    tick: u64,
    before: Option<ScoreBar>,
    bar: &ScoreBar,
) -> Result<(), AllocError>
    ensures { OnOk result (events.new.items ≡ events.old.items ++ changes_at tick before bar.now) }
{
    let changes = [
        tempo_change(before, bar),
        signature_change(before, bar),
        key_change(key_before(before), bar.sf),
    ];
    'changes: for change in changes {
        if let Some(what) = change {
            events.push(Event { tick, what })?;
        }
    }
    Ok(())
}

/// The changes at all barlines.
pub(crate) fn conductor(
    alloc: Global,
    bars: &[ScoreBar],
    resolution: Units,
) -> Result<Vec<Event>, AllocError>
    requires bars { All IsScoreBar bars.now }
    requires few_bars { length bars.now ≤ 2 ^ 32 }
    ensures { IfOk result (λ events. events.items ≡ definitions.conductor resolution bars.now) }
{
    let units = resolution.count();
    let mut events = Vec::new(alloc);
    let mut before = None;
    let mut tick = 0;
    'bars: for bar in bars {
        push_changes(&mut events, tick, before, bar)?;
        before = Some(*bar);
        tick += score_bar_parts(bar, units);
    }
    Ok(events)
}
