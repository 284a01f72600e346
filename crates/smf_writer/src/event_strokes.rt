ghost use Rattle.smf_bytes.specs.declared.quantity.TheConstants.{GREATEST_QUANTITY};
ghost use Rattle.smf_writer.specs.EventNotes.{main_end, main_onset};
ghost use Rattle.smf_writer.specs.Strokes.{grace_events, joined_keys, span_events};
ghost use Rattle.voice_events.specs.Parts as parts;
ghost use Rattle.voice_events.specs.Parts.{IsWhole, end_parts, len_parts, start_parts};
ghost use Rattle.voice_events.specs.VoiceEvents.{IsVoiceSpan};
ghost use Rattle.std.specs.Prelude.{◌≡◌, ◌++◌, ◌+◌, ◌*◌, ◌≤◌, ◌-◌, ◌/◌, if◌then◌else◌, IfOk, OnOk, length};

use crate::messages::push_stroke;
use crate::stroke::Stroke;
use rhythm_base::{Event, Frac, Keys, Span};
use smf_bytes::Quantity;
use std::alloc::{AllocError, Global};
use voice_events::frac_parts;

/// A number of whole notes in ticks.
fn ticks_of(fraction: Frac, resolution: u16) -> u64
    requires whole { IsWhole (64 * resolution) fraction }
    requires early { parts.frac_parts (64 * resolution) fraction ≤ GREATEST_QUANTITY }
    ensures { result ≡ parts.frac_parts (64 * resolution) fraction }
{
    frac_parts(fraction, 64 * u64::from(resolution))
}

/// The keys of all grace chords.
fn joined(graces: &[Keys]) -> Keys
    ensures { result ≡ joined_keys graces.now }
{
    let mut all = Keys::none();
    'graces: for keys in graces {
        all = all.join(*keys);
    }
    all
}

/// Appends the messages of grace chords of a tick each, from a tick on, and gives the tick after them.
fn push_graces(
    alloc: Global,
    track: &mut Vec<Event>,
    channel: u8,
    onset: Quantity,
    graces: &[Keys],
) -> Result<u64, AllocError>
    requires { length graces.now ≤ 3 }
    ensures events { OnOk result (track.new.items ≡ track.old.items ++ grace_events channel onset graces.now) }
    ensures after { IfOk result (λ tick. tick ≡ onset + length graces.now) }
{
    let mut tick = onset.count();
    'graces: for keys in graces {
        let stroke = Stroke {
            onset: tick,
            end: tick + 1,
            held: *keys,
            passing: Keys::none(),
        };
        push_stroke(alloc, track, channel, &stroke)?;
        tick += 1;
    }
    Ok(tick)
}

/// The tick at which the chord of a span ends that begins at a tick.
fn end_of(span: &Span, onset: u64, end: u64) -> u64
    requires { onset ≤ end }
    ensures { result ≡ (if span.now.short then onset + (end - onset) / 2 else end) }
{
    if span.short {
        onset + (end - onset) / 2
    } else {
        end
    }
}

/// Appends the messages of an event.
pub(crate) fn push_event(
    alloc: Global,
    track: &mut Vec<Event>,
    channel: u8,
    resolution: u16,
    span: &Span,
) -> Result<(), AllocError>
    requires span { IsVoiceSpan resolution span.now }
    requires early { end_parts resolution span.now ≤ GREATEST_QUANTITY }
    ensures { OnOk result (track.new.items ≡ track.old.items ++ span_events resolution channel span.now) }
{
    let start = ticks_of(span.start, resolution);
    let length = ticks_of(span.len, resolution);
    let graces = span.graces.as_slice();
    let (onset, passing) = if (graces.len() as u64) < length {
        let onset = push_graces(alloc, track, channel, Quantity::of(start), graces)?;
        (onset, Keys::none())
    } else {
        (start, joined(graces))
    };
    let stroke = Stroke {
        onset,
        end: end_of(span, onset, start + length),
        held: span.keys,
        passing,
    };
    push_stroke(alloc, track, channel, &stroke)
}
