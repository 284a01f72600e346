ghost use Rattle.lily_writer.specs.Writing.{EndsAfter, IsAhead, PassesEnded, WritesBar, WritesFront};
ghost use Rattle.std.specs.Prelude.{◌+◌, ◌*◌, ◌≤◌, IfOk};

use crate::extent::Extent;
use crate::piece::{write_gap, write_span};
use crate::place::extent_of;
use rhythm_base::Units;
use std::alloc::{AllocError, Global};
use std::marker::Model;
use voice_events::KernEvent;

/// The events of a voice that have not ended.
#[derive(Drop)]
pub(crate) struct Ahead<'a> {
    pub(crate) events: &'a [KernEvent],
    /// Where the event before them has ended.
    pub(crate) at: u64,
    /// The last barline.
    pub(crate) end: u64,
}

impl<'a> Model for Ahead<'a> {
    ghost use Rattle.lily_writer.specs.Writing.{Ahead};
    ghost use Rattle.lily_writer.specs.Staves.{spans_of};

    ghost Value = { Ahead };

    ghost view = { λ a. record { spans = spans_of a.events.now; at = a.at; end = a.end } };
}

/// Writes the pieces of the gaps and events that end in a bar, and passes these events.
fn write_ended<'a>(
    alloc: Global,
    text: &mut Vec<u8>,
    flats: bool,
    resolution: Units,
    bar: Extent,
    ahead: Ahead<'a>,
) -> Result<Ahead<'a>, AllocError>
    requires ahead { IsAhead resolution ahead }
    requires few { bar.to ≤ bar.from + 64 * (64 * resolution) }
    ensures passed { PassesEnded resolution flats bar ahead.entry text.old result text.new }
    ensures next { IfOk result (λ a. EndsAfter resolution bar.to a.spans) }
{
    let Ahead {
        mut events,
        mut at,
        end,
    } = ahead;
    'events: while let [event, more @ ..] = events {
        let whole = extent_of(&event.span, resolution);
        if whole.to > bar.to {
            return Ok(Ahead { events, at, end });
        }
        let gap = Extent {
            from: at,
            to: whole.from,
        };
        write_gap(alloc, text, resolution, bar, gap)?;
        write_span(alloc, text, flats, resolution, bar, &event.span)?;
        events = more;
        at = whole.to;
    }
    Ok(Ahead { events, at, end })
}

/// Writes the rest of a bar in which no event ends: a gap, and the front of the next event.
fn write_front(
    alloc: Global,
    text: &mut Vec<u8>,
    flats: bool,
    resolution: Units,
    bar: Extent,
    ahead: &Ahead,
) -> Result<(), AllocError>
    requires ahead { IsAhead resolution ahead.now }
    requires next { EndsAfter resolution bar.to ahead.now.spans }
    requires few { bar.to ≤ bar.from + 64 * (64 * resolution) }
    ensures { WritesFront resolution flats bar ahead.now text.old result text.new }
{
    match ahead.events {
        [] => {
            let gap = Extent {
                from: ahead.at,
                to: ahead.end,
            };
            write_gap(alloc, text, resolution, bar, gap)
        }
        [event, ..] => {
            let gap = Extent {
                from: ahead.at,
                to: extent_of(&event.span, resolution).from,
            };
            write_gap(alloc, text, resolution, bar, gap)?;
            write_span(alloc, text, flats, resolution, bar, &event.span)
        }
    }
}

/// Writes the elements of a bar, and passes the events that end in it.
pub(crate) fn write_bar<'a>(
    alloc: Global,
    text: &mut Vec<u8>,
    flats: bool,
    resolution: Units,
    bar: Extent,
    ahead: Ahead<'a>,
) -> Result<Ahead<'a>, AllocError>
    requires ahead { IsAhead resolution ahead }
    requires few { bar.to ≤ bar.from + 64 * (64 * resolution) }
    ensures { WritesBar resolution flats bar ahead.entry text.old result text.new }
{
    let after = write_ended(alloc, text, flats, resolution, bar, ahead)?;
    write_front(alloc, text, flats, resolution, bar, &after)?;
    Ok(after)
}
