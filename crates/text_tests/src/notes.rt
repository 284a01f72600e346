ghost use Rattle.std.specs.Prelude.{◌≡◌};

use notes_writer::write_notes;
use rhythm_base::{Bar, KeyMark, Note, Notes, Performance, Tempo};
use std::alloc::{AllocError, Global};
use std::test::Fail;

/// What an editing session of the two voices starts from.
const TWO_VOICES: &str = "\
bar 0 0 4/4
bar 1 1920 3/4
tempo 0 500000
key 0 -3
key 1920 1
note 0 60 0 480
note 0 67 0 960
note 3 48 0 1920
note 0 64 480 960
end 3360
";

/// Two voices over a bar of 4/4 and a bar of 3/4, at 480 ticks to the quarter, in three flats and then in one sharp.
fn two_voices(alloc: Global) -> Result<Performance, AllocError> {
    let tempo = Tempo {
        tick: 0,
        micros: 500_000,
    };
    let flats = KeyMark { tick: 0, sf: -3 };
    let sharp = KeyMark { tick: 1920, sf: 1 };
    let first = Bar {
        start: 0,
        num: 4,
        den: 4,
    };
    let second = Bar {
        start: 1920,
        num: 3,
        den: 4,
    };
    let tempos = vec![in alloc; tempo]?;
    let key_marks = vec![in alloc; flats, sharp]?;
    let bars = vec![in alloc; first, second]?;
    let channels = vec![in alloc; 0u8, 3u8]?;
    let notes = vec![in alloc;
        note(0, 60, 0, 480),
        note(0, 67, 0, 960),
        note(0, 64, 480, 960),
        note(3, 48, 0, 1920),
    ]?;
    let listed = Notes::new(alloc, notes.as_slice())?;
    Performance::make(
        480,
        tempos,
        key_marks,
        bars,
        3360,
        channels,
        listed,
        Vec::new(alloc),
    )
}

/// A note of a channel and a key, from a tick to a tick.
fn note(channel: u8, key: u8, onset: u64, end: u64) -> Note
    ensures { result ≡ record { channel = channel; key = key; onset = onset; end = end } }
{
    Note {
        channel,
        key,
        onset,
        end,
    }
}

#[test]
fn notes_are_written(rt: HostRuntime) -> Result<(), Fail> {
    let performance = two_voices(rt.alloc())?;
    let text = write_notes(rt.alloc(), &performance)?;
    assert!(rt; text.as_slice() == TWO_VOICES.as_bytes());
    Ok(())
}
