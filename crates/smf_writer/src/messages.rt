ghost use Rattle.rhythm_base.specs.declared.event.What.TheVariants.{Off, On};
ghost use Rattle.smf_writer.specs.Strokes.{begun_events, ended_events, stroke_events};
ghost use Rattle.std.specs.Prelude.{◌≡◌, ◌++◌, OnOk};

use crate::stroke::{Stroke, notes_of};
use rhythm_base::{Event, Note, What};
use std::alloc::{AllocError, Global};

/// That a note begins.
fn beginning(note: &Note) -> Event
    ensures { result ≡ record { tick = note.now.onset; what = On note.now.channel note.now.key } }
{
    let Note {
        channel,
        key,
        onset,
        ..
    } = *note;
    Event {
        tick: onset,
        what: What::On { channel, key },
    }
}

/// That a note ends.
fn ending(note: &Note) -> Event
    ensures { result ≡ record { tick = note.now.end; what = Off note.now.channel note.now.key } }
{
    let Note {
        channel,
        key,
        end,
        ..
    } = *note;
    Event {
        tick: end,
        what: What::Off { channel, key },
    }
}

/// Appends that notes begin; those of no length end at once.
fn push_begun(events: &mut Vec<Event>, notes: &[Note]) -> Result<(), AllocError>
    ensures { OnOk result (events.new.items ≡ events.old.items ++ begun_events notes.now) }
{
    'notes: for note in notes {
        events.push(beginning(note))?;
        if note.onset >= note.end {
            events.push(ending(note))?;
        }
    }
    Ok(())
}

/// Appends that notes of some length end.
fn push_ended(events: &mut Vec<Event>, notes: &[Note]) -> Result<(), AllocError>
    ensures { OnOk result (events.new.items ≡ events.old.items ++ ended_events notes.now) }
{
    'notes: for note in notes {
        if note.onset < note.end {
            events.push(ending(note))?;
        }
    }
    Ok(())
}

/// Appends the messages of a stroke.
pub(crate) fn push_stroke(
    alloc: Global,
    events: &mut Vec<Event>,
    channel: u8,
    stroke: &Stroke,
) -> Result<(), AllocError>
    ensures { OnOk result (events.new.items ≡ events.old.items ++ stroke_events channel stroke.now) }
{
    let notes = notes_of(alloc, channel, stroke)?;
    push_begun(events, notes.as_slice())?;
    push_ended(events, notes.as_slice())
}
