ghost use Rattle.smf_reader.specs.Ranges.{IsPlayedFile};
ghost use Rattle.std.specs.Prelude.{◌≤◌, IfOk};

use note_list::NoteFault;
use performance_load::{LoadFault, load};
use rhythm_base::{Bar, Event, Note, What};
use smf_reader::{Smf, Track};
use std::alloc::{AllocError, Global};
use std::test::Fail;

/// A file of one track without an event.
fn silent(alloc: Global) -> Result<Smf, AllocError>
    ensures { IfOk result (λ f. IsPlayedFile f) }
{
    let track = Track {
        events: Vec::new(alloc),
        last: 0,
    };
    Ok(Smf {
        division: 480,
        tracks: vec![in alloc; track]?,
    })
}

/// Two voices, of which the second begins late in the first bar.
fn two_voices(alloc: Global) -> Result<Smf, AllocError>
    ensures { IfOk result (λ f. IsPlayedFile f) }
{
    let events = vec![in alloc;
        Event {
            tick: 0,
            what: What::Tempo(600_000)
        },
        Event {
            tick: 0,
            what: What::On {
                channel: 3,
                key: 60
            }
        },
        Event {
            tick: 0,
            what: What::KeySig(-2)
        },
        Event {
            tick: 480,
            what: What::Off {
                channel: 3,
                key: 60
            }
        },
        Event {
            tick: 1900,
            what: What::On {
                channel: 1,
                key: 62
            }
        },
        Event {
            tick: 1920,
            what: What::Off {
                channel: 1,
                key: 62
            }
        },
    ]?;
    let track = Track { events, last: 1920 };
    Ok(Smf {
        division: 480,
        tracks: vec![in alloc; track]?,
    })
}

/// The notes of the two voices.
const NOTES: [Note; 2] = [
    Note {
        channel: 1,
        key: 62,
        onset: 1900,
        end: 1920,
    },
    Note {
        channel: 3,
        key: 60,
        onset: 0,
        end: 480,
    },
];

/// Their bars. The last onset is in the last sixteenth of its bar, so one bar more is laid.
const BARS: [Bar; 2] = [
    Bar {
        start: 0,
        num: 4,
        den: 4,
    },
    Bar {
        start: 1920,
        num: 4,
        den: 4,
    },
];

#[test]
fn loads_two_voices(rt: HostRuntime) -> Result<(), Fail> {
    let alloc = rt.alloc();
    let Ok(performance) = load(alloc, &two_voices(alloc)?) else {
        assert!(rt; false);
        return Ok(());
    };
    assert!(rt; performance.division() == 480);
    assert!(rt; performance.channels() == [1, 3].as_slice());
    let notes = performance.notes();
    let notes = notes.range(alloc, 0, notes.len())?;
    assert!(rt; notes.as_slice() == NOTES.as_slice());
    assert!(rt; performance.bars() == BARS.as_slice());
    assert!(rt; performance.last() == 3840);
    assert!(rt; performance.tempos().len() == 1 && performance.tempos()[0].micros == 600_000);
    assert!(rt; performance.key_marks().len() == 1 && performance.key_marks()[0].sf == -2);
    assert!(rt; performance.pins().is_empty());
    Ok(())
}

#[test]
fn says_why_there_is_no_performance(rt: HostRuntime) -> Result<(), Fail> {
    let alloc = rt.alloc();
    let none = load(alloc, &silent(alloc)?).err();
    assert!(rt; matches!(none, Some(LoadFault::Notes(NoteFault::NoNotes))));
    Ok(())
}
