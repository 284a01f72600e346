ghost use Rattle.std.specs.Prelude.{◌≡◌, ◌<◌, ◌≤◌, IfOk, length};
ghost use Rattle.smf_reader.specs.Meta.{meta_event, meta_meaning, tempo};

use crate::bytes::{read_byte, read_content};
use crate::fault::SmfFault;
use crate::meaning::Meaning;
use crate::quantity::read_quantity;
use rhythm_base::What;

const END_OF_TRACK: u8 = 0x2f;

const TEMPO: u8 = 0x51;

const SIGNATURE: u8 = 0x58;

const KEY_SIGNATURE: u8 = 0x59;

/// What the bytes of a tempo say: microseconds of a quarter note, not 0.
fn tempo(content: &[u8]) -> Option<Meaning>
    ensures { result ≡ tempo content.now }
{
    let [high, middle, low] = content else {
        return None;
    };
    let micros = u32::from(*high) * 65536 + u32::from(*middle) * 256 + u32::from(*low);
    (micros != 0).then_some(Meaning::Event(What::Tempo(micros)))
}

/// What a meta event of this type says, where its content is right.
fn meaning_of(kind: u8, content: &[u8]) -> Option<Meaning>
    ensures { result ≡ meta_meaning kind content.now }
{
    match (kind, content) {
        (END_OF_TRACK, []) => Some(Meaning::EndOfTrack),
        (TEMPO, _) => tempo(content),
        (SIGNATURE, [num, dd, _, _]) => Some(Meaning::Event(What::Signature {
            num: *num,
            dd: *dd,
        })),
        (KEY_SIGNATURE, [sharps @ (0..=7 | 249..=255), 0 | 1]) => {
            Some(Meaning::Event(What::KeySig(sharps.cast_signed())))
        }
        (END_OF_TRACK | SIGNATURE | KEY_SIGNATURE, _) => None,
        _ => Some(Meaning::Skipped),
    }
}

/// What the meta event says whose ff stands at this place, and the place after it.
#[tactic(auto, unfolding(crate::specs::Meta::meta_event))]
pub(crate) fn read_meta(bytes: &[u8], at: usize) -> Result<(Meaning, usize), SmfFault>
    requires { at < length bytes.now }
    ensures value { result ≡ meta_event bytes.now at }
    ensures later { IfOk result (λ m. at < m.1) }
    ensures within { IfOk result (λ m. m.1 ≤ length bytes.now) }
{
    let kind = read_byte(bytes, at + 1)?;
    let (size, place) = read_quantity(bytes, at + 2)?;
    let content = read_content(bytes, place, size)?;
    match meaning_of(kind, content) {
        Some(meaning) => Ok((meaning, place + size as usize)),
        None => Err(SmfFault::BadMeta { at: at as u64 }),
    }
}
