ghost use Rattle.std.specs.Prelude.{◌≤◌, All, IfErr, IfOk, length, map};
ghost use Rattle.std.specs.List.Sorted.{IsNonDecreasing};
ghost use Rattle.rhythm_base.specs.declared.limits.TheConstants.{MOST_NOTES};
ghost use Rattle.note_list.specs.Kept.{AreKeptNotes};
ghost use Rattle.note_list.specs.Pairing.{IsEventOf, IsNoteFault};

use crate::ends::Ends;
use crate::fault::NoteFault;
use crate::onsets::Onsets;
use rhythm_base::{Event, Note};
use std::alloc::Global;

/// The most notes of a performance.
const MOST_NOTES: usize = 65_536;

/// The kept notes, the last first, or their number where they are too many: those above the most are only counted. It goes
/// over the events from the last to the first, so that the end of a note is known where it begins, and the first that is met
/// of a channel, key and onset has the greatest end.
pub fn kept(alloc: Global, events: &[Event], last: u64) -> Result<Vec<Note>, NoteFault>
    requires order { IsNonDecreasing (map (λ e. e.tick) events.now) }
    requires events { All (IsEventOf last) events.now }
    ensures notes { IfOk result (λ v. AreKeptNotes last events.now v.items) }
    ensures few { IfOk result (λ v. length v.items ≤ MOST_NOTES) }
    ensures fault { IfErr result (IsNoteFault last events.now) }
{
    let mut ends = Ends::new(alloc, last)?;
    let mut onsets = Onsets::new(alloc)?;
    let mut notes = Vec::new(alloc);
    let mut count: u64 = 0;
    'events: for place in (0..events.len()).rev() {
        if let Some(note) = ends.take(events[place]) {
            if onsets.insert(note) {
                count += 1;
                if notes.len() < MOST_NOTES {
                    notes.push(note)?;
                }
            }
        }
    }
    if count > MOST_NOTES as u64 {
        return Err(NoteFault::TooManyNotes { count });
    }
    Ok(notes)
}
