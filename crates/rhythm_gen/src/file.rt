ghost use Rattle.rhythm_gen.specs.Draws.{draw};
ghost use Rattle.rhythm_gen.specs.MidiFile.{HasPiece, generated, voice_track};
ghost use Rattle.std.specs.Prelude.{◌≡◌, ◌++◌, ◌*◌, IfOk, OnOk};

use crate::draws::Draws;
use crate::piece_bars::PieceBars;
use crate::piece_number::PieceNumber;
use crate::track::track_content;
use crate::voice::voice_notes;
use crate::voice_channel::VoiceChannel;
use smf_bytes::push_track;
use std::alloc::{AllocError, Global};

/// The header of format 1 with three tracks and 480 ticks to a quarter note, and the track of the tempo and the signature.
const OPENING: [u8; 41] = *b"MThd\0\0\0\x06\0\x01\0\x03\x01\xe0\
    MTrk\0\0\0\x13\0\xff\x51\x03\x07\xa1\x20\0\xff\x58\x04\x04\x02\x18\x08\0\xff\x2f\0";

/// Appends the track of a voice.
fn push_voice(
    alloc: Global,
    bytes: &mut Vec<u8>,
    draws: &mut Draws,
    channel: VoiceChannel,
    bars: PieceBars,
) -> Result<(), AllocError>
    ensures track { OnOk result (bytes.new.items ≡ bytes.old.items ++ voice_track draws.old bars channel) }
    ensures draws { OnOk result (draws.new ≡ draw draws.old (4 * bars)) }
{
    let notes = voice_notes(alloc, draws, channel, bars)?;
    // For the proof: both are small, so each note can be written.
    let (_channel, _bars) = (channel.number(), bars.count());
    let content = track_content(alloc, notes.as_slice(), bars)?;
    push_track(bytes, content.as_slice())
}

/// The bytes of a MIDI file of so many bars of 4/4 for two voices, channels 0 and 1: each number makes another piece.
pub fn generate(alloc: Global, number: u32, bars: u32) -> Result<Vec<u8>, AllocError>
    requires { HasPiece number bars }
    ensures { IfOk result (λ bytes. bytes.items ≡ generated number bars) }
{
    let mut draws = Draws::of_piece(PieceNumber::of(number));
    let bars = PieceBars::of(bars);
    let mut bytes = Vec::new(alloc);
    bytes.extend_from_slice(&OPENING)?;
    push_voice(alloc, &mut bytes, &mut draws, VoiceChannel::first(), bars)?;
    push_voice(alloc, &mut bytes, &mut draws, VoiceChannel::second(), bars)?;
    Ok(bytes)
}
