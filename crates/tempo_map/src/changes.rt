ghost use Rattle.std.specs.Prelude.{◌≡◌, IfOk};
ghost use Rattle.rhythm_base.specs.Time as changes;

use rhythm_base::{Event, KeyMark, Signature, Tempo, What};
use std::alloc::{AllocError, Global};

/// The changes among the events of a file, each list in the order of the events.
#[derive(Drop)]
pub struct Changes {
    /// The changes of tempo.
    pub tempos: Vec<Tempo>,
    /// The changes of key.
    pub key_marks: Vec<KeyMark>,
    /// The changes of signature, as the file writes them: some may be out of range.
    pub signatures: Vec<Signature>,
}

fn tempo_in(event: &Event) -> Option<Tempo>
    ensures { result ≡ changes.tempo_in event.now.tick event.now.what }
{
    match event.what {
        What::Tempo(micros) => Some(Tempo {
            tick: event.tick,
            micros,
        }),
        _ => None,
    }
}

fn key_in(event: &Event) -> Option<KeyMark>
    ensures { result ≡ changes.key_in event.now.tick event.now.what }
{
    match event.what {
        What::KeySig(sf) => Some(KeyMark {
            tick: event.tick,
            sf,
        }),
        _ => None,
    }
}

fn signature_in(event: &Event) -> Option<Signature>
    ensures { result ≡ changes.signature_in event.now.tick event.now.what }
{
    match event.what {
        What::Signature { num, dd } => Some(Signature {
            tick: event.tick,
            num,
            dd,
        }),
        _ => None,
    }
}

fn tempos_of(alloc: Global, events: &[Event]) -> Result<Vec<Tempo>, AllocError>
    ensures { IfOk result (λ v. v.items ≡ changes.tempos_of events.now) }
{
    events
        .iter()
        .filter_map(|event| tempo_in(event))
        .collect(alloc)
}

fn keys_of(alloc: Global, events: &[Event]) -> Result<Vec<KeyMark>, AllocError>
    ensures { IfOk result (λ v. v.items ≡ changes.keys_of events.now) }
{
    events
        .iter()
        .filter_map(|event| key_in(event))
        .collect(alloc)
}

fn signatures_of(alloc: Global, events: &[Event]) -> Result<Vec<Signature>, AllocError>
    ensures { IfOk result (λ v. v.items ≡ changes.signatures_of events.now) }
{
    events
        .iter()
        .filter_map(|event| signature_in(event))
        .collect(alloc)
}

/// The changes of tempo, key and signature among the events.
pub fn changes_of(alloc: Global, events: &[Event]) -> Result<Changes, AllocError>
    ensures tempos { IfOk result (λ c. c.tempos.items ≡ changes.tempos_of events.now) }
    ensures key_marks { IfOk result (λ c. c.key_marks.items ≡ changes.keys_of events.now) }
    ensures signatures { IfOk result (λ c. c.signatures.items ≡ changes.signatures_of events.now) }
{
    Ok(Changes {
        tempos: tempos_of(alloc, events)?,
        key_marks: keys_of(alloc, events)?,
        signatures: signatures_of(alloc, events)?,
    })
}
