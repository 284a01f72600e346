ghost use Rattle.std.specs.Prelude.{All, IfOk, IsTrue};
ghost use Rattle.note_list.specs.Pairing.{IsPlayable, IsEventOf};

use note_list::{NoteFault, pair};
use rhythm_base::{Event, Note, What};
use std::alloc::{AllocError, Global};
use std::test::Fail;

const ON: bool = true;

const OFF: bool = false;

/// The begin or the end of a note: its tick, which of the two it is, its channel and its key.
type Change = (u64, bool, u8, u8);

/// A note: its channel, its key, its onset and its end.
type Played = (u8, u8, u64, u64);

/// Events, the last tick of the file and the notes.
const PAIRINGS: [(&str, &[Change], u64, &[Played]); 3] = [
    (
        "four notes",
        &[
            (0, ON, 0, 60),
            (480, ON, 0, 60),
            (960, OFF, 0, 60),
            (960, ON, 0, 62),
            (960, OFF, 0, 62),
            (1440, ON, 0, 64),
        ],
        1920,
        &[
            (0, 60, 0, 480),
            (0, 60, 480, 960),
            (0, 62, 960, 960),
            (0, 64, 1440, 1920),
        ],
    ),
    ("no end", &[(3, ON, 15, 127)], 7, &[(15, 127, 3, 7)]),
    (
        "by channel, onset and key",
        &[
            (0, ON, 1, 50),
            (0, ON, 0, 70),
            (0, ON, 0, 60),
            (1, ON, 0, 10),
        ],
        5,
        &[(0, 60, 0, 5), (0, 70, 0, 5), (0, 10, 1, 5), (1, 50, 0, 5)],
    ),
];

fn has_key(what: What) -> bool
    ensures { IsTrue result → IsPlayable what }
{
    match what {
        What::On { channel, key } => channel < 16 && key < 128,
        What::Off { channel, key } => channel < 16 && key < 128,
        _ => true,
    }
}

/// The events that a file with this last tick can have.
fn playable(alloc: Global, changes: &[Change], last: u64) -> Result<Vec<Event>, AllocError>
    ensures { IfOk result (λ v. All (IsEventOf last) v.items) }
{
    let mut events = Vec::new(alloc);
    'changes: for (tick, begins, channel, key) in changes {
        let what = if *begins {
            What::On {
                channel: *channel,
                key: *key,
            }
        } else {
            What::Off {
                channel: *channel,
                key: *key,
            }
        };
        if *tick <= last && has_key(what) {
            events.push(Event { tick: *tick, what })?;
        }
    }
    Ok(events)
}

/// The notes of these changes, which are put in order first.
fn paired(alloc: Global, changes: &[Change], last: u64) -> Result<Vec<Note>, NoteFault> {
    let mut events = playable(alloc, changes, last)?;
    events.sort_by_key(|event| event.tick)?;
    pair(alloc, events.as_slice(), last)
}

fn played(alloc: Global, notes: &[Note]) -> Result<Vec<Played>, AllocError> {
    notes
        .iter()
        .map(|note| (note.channel, note.key, note.onset, note.end))
        .collect(alloc)
}

#[test]
fn pairings(rt: HostRuntime) -> Result<(), Fail> {
    for (name, changes, last, wanted) in &PAIRINGS {
        let notes = paired(rt.alloc(), changes, *last).ok().ok_or(*name)?;
        assert_eq!(rt;
            played(rt.alloc(), notes.as_slice())?.as_slice(),
            *wanted,
            "{name}"
        );
    }
    Ok(())
}

#[test]
fn no_notes(rt: HostRuntime) -> Result<(), Fail> {
    let silent = paired(rt.alloc(), &[(0, OFF, 0, 60)], 9).err();
    assert_eq!(rt; silent, Some(NoteFault::NoNotes));
    Ok(())
}
