ghost use Rattle.smf_bytes.specs.declared.quantity.TheConstants.{GREATEST_QUANTITY};
ghost use Rattle.smf_writer.specs.Strokes.{spine_events};
ghost use Rattle.voice_events.specs.Parts.{end_parts};
ghost use Rattle.voice_events.specs.VoiceEvents.{IsVoiceSpan};
ghost use Rattle.std.specs.Prelude.{◌≡◌, ◌≤◌, All, IfOk};

use crate::event_strokes::push_event;
use rhythm_base::Event;
use std::alloc::{AllocError, Global};
use voice_events::KernEvent;

/// The events of the track of a spine.
pub(crate) fn voice(
    alloc: Global,
    events: &[KernEvent],
    spine: u8,
    channel: u8,
    resolution: u16,
) -> Result<Vec<Event>, AllocError>
    requires spans { All (λ e. IsVoiceSpan resolution e.span) events.now }
    requires early { All (λ e. end_parts resolution e.span ≤ GREATEST_QUANTITY) events.now }
    ensures { IfOk result (λ track. track.items ≡ spine_events resolution events.now spine channel) }
{
    let mut track = Vec::new(alloc);
    'events: for event in events {
        if event.spine == spine {
            push_event(alloc, &mut track, channel, resolution, &event.span)?;
        }
    }
    Ok(track)
}
