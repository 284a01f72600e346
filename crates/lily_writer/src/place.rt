ghost use Rattle.std.specs.Prelude.{◌≡◌, ◌^◌, ◌<◌};
ghost use Rattle.voice_events.specs.Parts.{end_parts, start_parts};
ghost use Rattle.voice_events.specs.VoiceEvents.{IsVoiceSpan};

use crate::extent::Extent;
use rhythm_base::{Span, Units};
use voice_events::frac_parts;

/// Where a span begins and ends, in 64 parts of a whole note for each unit of a bar.
pub(crate) fn extent_of(span: &Span, resolution: Units) -> Extent
    requires span { IsVoiceSpan resolution span.now }
    requires small { end_parts resolution span.now < 2 ^ 60 }
    ensures from { result.from ≡ start_parts resolution span.now }
    ensures to { result.to ≡ end_parts resolution span.now }
{
    let whole = 64 * u64::from(resolution.count());
    let from = frac_parts(span.start, whole);
    Extent {
        from,
        to: from + frac_parts(span.len, whole),
    }
}
