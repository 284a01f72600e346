ghost use Rattle.smf_bytes.specs.Message.{HasChannel};
ghost use Rattle.smf_bytes.specs.Quantity.{quantity_bytes};
ghost use Rattle.smf_bytes.specs.Track.{AreTimed, content_bytes, end_of_track_bytes};
ghost use Rattle.smf_bytes.specs.declared.quantity.TheConstants.{GREATEST_QUANTITY};
ghost use Rattle.std.specs.Prelude.{◌≡◌, ◌++◌, ◌≤◌, All, IfOk, OnOk};

use crate::message::push_event;
use crate::quantity::{Quantity, push_quantity};
use rhythm_base::Event;
use std::alloc::{AllocError, Global};

/// Appends the end of the track, after the number of ticks since the last event.
pub fn push_end(content: &mut Vec<u8>, ticks: u64) -> Result<(), AllocError>
    requires { ticks ≤ GREATEST_QUANTITY }
    ensures { OnOk result (content.new.items ≡ content.old.items ++ (quantity_bytes ticks ++ end_of_track_bytes)) }
{
    push_quantity(content, Quantity::of(ticks))?;
    content.extend_from_slice(&[0xff, 0x2f, 0])
}

/// The content of a track of these events, and of its end at a tick.
pub fn track_content(alloc: Global, events: &[Event], last: Quantity) -> Result<Vec<u8>, AllocError>
    requires order { AreTimed 0 events.now last }
    requires channels { All (λ e. HasChannel e.what) events.now }
    ensures { IfOk result (λ content. content.items ≡ content_bytes events.now last) }
{
    let end = last.count();
    let mut content = Vec::new(alloc);
    let mut tick = 0;
    'events: for event in events {
        push_event(&mut content, event.tick - tick, event.what)?;
        tick = event.tick;
    }
    push_end(&mut content, end - tick)?;
    Ok(content)
}
