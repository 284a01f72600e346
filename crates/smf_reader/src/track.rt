ghost use Rattle.std.specs.Prelude.{◌≤◌, length};
ghost use Rattle.smf_reader.specs.Outcome.{GivesFile};
ghost use Rattle.smf_reader.specs.Track.{track};

use crate::event::read_event;
use crate::fault::SmfFault;
use crate::meaning::Meaning;
use crate::smf::Track;
use rhythm_base::Event;
use std::alloc::Global;

/// The track whose events begin at this place and whose chunk ends with the bytes.
pub(crate) fn read_track(alloc: Global, bytes: &[u8], at: usize) -> Result<Track, SmfFault>
    requires { at ≤ length bytes.now }
    ensures { GivesFile result (track bytes.now at) }
{
    // No listed event has fewer than three bytes: a delta time, and two data bytes under a running status.
    let mut events = Vec::with_capacity(alloc, (bytes.len() - at) / 3)?;
    let mut last = 0;
    let mut running = None;
    let mut place = at;
    'events: while place < bytes.len() {
        let step = read_event(bytes, last, running, place)?;
        last = step.tick;
        running = step.running;
        place = step.next;
        match step.meaning {
            Meaning::Event(what) => events.push(Event { tick: last, what })?,
            Meaning::Skipped => {}
            Meaning::EndOfTrack => return Ok(Track { events, last }),
        }
    }
    Ok(Track { events, last })
}
