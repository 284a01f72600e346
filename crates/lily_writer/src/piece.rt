ghost use Rattle.lily_writer.specs.Writing.{WritesGap, WritesSpan};
ghost use Rattle.durations.specs.Value.{plain_grid};
ghost use Rattle.durations.specs.Values.{AreValues};
ghost use Rattle.std.specs.Prelude.{◌+◌, ◌-◌, ◌*◌, ◌^◌, ◌<◌, ◌≤◌, All, IfOk};
ghost use Rattle.voice_events.specs.Parts.{end_parts};
ghost use Rattle.voice_events.specs.VoiceEvents.{IsVoiceSpan};

use crate::elements::{push_first_graces, push_notes, push_rests};
use crate::extent::Extent;
use crate::place::extent_of;
use durations::{Value, notate};
use rhythm_base::{Span, Units};
use std::alloc::{AllocError, Global};

/// The values of what is in a bar of an extent, which has some length.
fn values_in(alloc: Global, resolution: Units, piece: Extent) -> Result<Vec<Value>, AllocError>
    requires some { piece.from < piece.to }
    requires few { piece.to ≤ piece.from + 64 * (64 * resolution) }
    ensures values { IfOk result (λ v. AreValues (piece.to - piece.from) (64 * resolution) v.items) }
    ensures some { IfOk result (λ v. All (λ w. 1 ≤ plain_grid w.recip) v.items) }
{
    notate(
        alloc,
        piece.to - piece.from,
        64 * u64::from(resolution.count()),
    )
}

/// Writes what of a gap is in a bar.
pub(crate) fn write_gap(
    alloc: Global,
    text: &mut Vec<u8>,
    resolution: Units,
    bar: Extent,
    whole: Extent,
) -> Result<(), AllocError>
    requires few { bar.to ≤ bar.from + 64 * (64 * resolution) }
    ensures { WritesGap resolution bar whole text.old result text.new }
{
    let piece = whole.cut(bar);
    if piece.from >= piece.to {
        return Ok(());
    }
    let values = values_in(alloc, resolution, piece)?;
    push_rests(text, &values)
}

/// Writes what of a span is in a bar.
pub(crate) fn write_span(
    alloc: Global,
    text: &mut Vec<u8>,
    flats: bool,
    resolution: Units,
    bar: Extent,
    span: &Span,
) -> Result<(), AllocError>
    requires few { bar.to ≤ bar.from + 64 * (64 * resolution) }
    requires span { IsVoiceSpan resolution span.now }
    requires small { end_parts resolution span.now < 2 ^ 60 }
    ensures { WritesSpan resolution flats bar span.now text.old result text.new }
{
    let whole = extent_of(span, resolution);
    let piece = whole.cut(bar);
    if piece.from >= piece.to {
        return Ok(());
    }
    let values = values_in(alloc, resolution, piece)?;
    let begins = piece.from == whole.from;
    push_first_graces(text, flats, begins, span)?;
    push_notes(
        text,
        flats,
        span.keys,
        &values,
        begins && span.short,
        piece.to < whole.to,
    )
}
