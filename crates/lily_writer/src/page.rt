ghost use Rattle.lily_writer.specs.Text.{IsLilyText};
ghost use Rattle.std.specs.List.{prefix_len};
ghost use Rattle.std.specs.Prelude.{◌≡◌, ◌==◌, IfOk};
ghost use Rattle.voice_events.specs.VoiceEvents.{AreVoiceEvents};
ghost use Rattle.voice_events.specs.Writable.{IsWritable};

use crate::staff::write_staff;
use derivation::ScoreBar;
use rhythm_base::Units;
use std::alloc::{AllocError, Global};
use voice_events::KernEvent;

/// How many of the events are of a spine, before one that is not.
fn own_count(events: &[KernEvent], spine: u8) -> usize
    ensures { result ≡ prefix_len (λ e. e.spine == spine) events.now }
{
    events
        .iter()
        .take_while(|event| event.spine == spine)
        .count()
}

/// The LilyPond text of the events of so many voices over these bars, for LilyPond 2.24. It fails where there is not enough
/// memory, and there alone.
pub fn write_lily(
    alloc: Global,
    events: &[KernEvent],
    bars: &[ScoreBar],
    voices: u8,
    resolution: u16,
) -> Result<Vec<u8>, AllocError>
    requires writable { IsWritable resolution bars.now voices }
    requires events { AreVoiceEvents resolution bars.now voices events.now }
    ensures { IfOk result (λ v. IsLilyText resolution bars.now voices events.now v.items) }
{
    let units = Units::of(resolution);
    let mut text = Vec::new(alloc);
    text.extend_from_slice(b"\\version \"2.24.0\"\n\\score {\n<<\n")?;
    let mut later = events;
    'staves: for voice in 0..voices {
        let (own, others) = later.split_at(own_count(later, voice + 1));
        write_staff(alloc, &mut text, units, bars, voice == 0, own)?;
        later = others;
    }
    text.extend_from_slice(b">>\n}\n")?;
    Ok(text)
}
