ghost use Rattle.smf_bytes.specs.Message.{HasChannel};
ghost use Rattle.smf_bytes.specs.Track.{AreTimed};
ghost use Rattle.smf_writer.specs.RenderedFile.{AreChannels, HasRenderFault, IsRendered, IsShortTrack, track_bytes, voices_bytes};
ghost use Rattle.smf_writer.specs.Strokes.{voices_from};
ghost use Rattle.voice_events.specs.Parts as parts;
ghost use Rattle.voice_events.specs.VoiceEvents.{AreVoiceEvents};
ghost use Rattle.voice_events.specs.Writable.{IsWritable};
ghost use Rattle.std.specs.Prelude.{◌≡◌, ◌++◌, All, IfErr, IfOk, OnOk, length};

use crate::changes::conductor;
use crate::fault::RenderFault;
use crate::voice::voice;
use derivation::ScoreBar;
use rhythm_base::{Event, Units};
use smf_bytes::{Quantity, push_header, push_track, track_content};
use std::alloc::{AllocError, Global};
use voice_events::{KernEvent, score_parts};

/// Appends the track of some events, which ends with the last barline.
fn push_events(
    alloc: Global,
    bytes: &mut Vec<u8>,
    events: &[Event],
    last: Quantity,
) -> Result<(), AllocError>
    requires order { AreTimed 0 events.now last }
    requires channels { All (λ e. HasChannel e.what) events.now }
    ensures bytes { OnOk result (bytes.new.items ≡ bytes.old.items ++ track_bytes last events.now) }
    ensures short { OnOk result (IsShortTrack last events.now) }
{
    let content = track_content(alloc, events, last)?;
    push_track(bytes, content.as_slice())
}

/// Appends the tracks of the voices.
fn push_voices(
    alloc: Global,
    bytes: &mut Vec<u8>,
    events: &[KernEvent],
    bars: &[ScoreBar],
    channels: &[u8],
    resolution: u16,
    last: Quantity,
) -> Result<(), AllocError>
    requires writable { IsWritable resolution bars.now (length channels.now) }
    requires channels { AreChannels channels.now }
    requires events { AreVoiceEvents resolution bars.now (length channels.now) events.now }
    requires last { last ≡ parts.score_parts resolution bars.now }
    ensures bytes { OnOk result (bytes.new.items ≡ bytes.old.items ++ voices_bytes resolution events.now channels.now last) }
    ensures short { OnOk result (All (IsShortTrack last) (voices_from resolution events.now 1 channels.now)) }
{
    'channels: for (index, channel) in channels.iter().enumerate() {
        let spine = index as u8 + 1;
        let track = voice(alloc, events, spine, *channel, resolution)?;
        push_events(alloc, bytes, track.as_slice(), last)?;
    }
    Ok(())
}

/// The MIDI file of the events of a score: a track for the changes at its barlines, and one for each of its spines, on the
/// channel of that number. A whole note has 64 times the resolution in ticks.
pub fn render(
    alloc: Global,
    events: &[KernEvent],
    bars: &[ScoreBar],
    channels: &[u8],
    resolution: u16,
) -> Result<Vec<u8>, RenderFault>
    requires writable { IsWritable resolution bars.now (length channels.now) }
    requires channels { AreChannels channels.now }
    requires events { AreVoiceEvents resolution bars.now (length channels.now) events.now }
    ensures file { IfOk result (λ v. IsRendered resolution bars.now channels.now events.now v.items) }
    ensures fault { IfErr result (HasRenderFault resolution bars.now) }
{
    let tick = score_parts(bars, resolution);
    let Some(last) = Quantity::new(tick) else {
        return Err(RenderFault::TooLong { tick });
    };
    let mut bytes = Vec::new(alloc);
    push_header(&mut bytes, channels.len() as u16 + 1, 16 * resolution)?;
    let changes = conductor(alloc, bars, Units::of(resolution))?;
    push_events(alloc, &mut bytes, changes.as_slice(), last)?;
    push_voices(alloc, &mut bytes, events, bars, channels, resolution, last)?;
    Ok(bytes)
}
