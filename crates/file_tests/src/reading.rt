use rhythm_base::{Event, What};
use smf_reader::{SmfFault, read_smf};
use std::alloc::{AllocError, Global};
use std::test::Fail;

/// Four quarter notes from C to F, with 480 ticks to a quarter note.
const QUARTERS: &[u8] = b"MThd\0\0\0\x06\0\0\0\x01\x01\xe0MTrk\0\0\0\x28\
    \0\x90\x3c\x40\x83\x60\x80\x3c\0\0\x90\x3e\x40\x83\x60\x80\x3e\0\
    \0\x90\x40\x40\x83\x60\x80\x40\0\0\x90\x41\x40\x83\x60\x80\x41\0\0\xff\x2f\0";

/// The same notes, with a chunk of another type before the track, and a meta event that is skipped before them.
const QUARTERS_AND_OTHERS: &[u8] =
    b"MThd\0\0\0\x06\0\0\0\x01\x01\xe0XFIH\0\0\0\x03abcMTrk\0\0\0\x2d\
    \0\xff\x7f\x01\x41\0\x90\x3c\x40\x83\x60\x80\x3c\0\0\x90\x3e\x40\x83\x60\x80\x3e\0\
    \0\x90\x40\x40\x83\x60\x80\x40\0\0\x90\x41\x40\x83\x60\x80\x41\0\0\xff\x2f\0";

/// Three tracks: time and key, a voice with running status, and a voice of one note.
const VOICES: &[u8] = b"MThd\0\0\0\x06\0\x01\0\x03\x01\xe0MTrk\0\0\0\x29\
    \0\xff\x03\x04Demo\0\xff\x58\x04\x04\x02\x18\x08\0\xff\x59\x02\xfe\0\
    \0\xff\x51\x03\x09\x27\xc0\x8f\0\xff\x51\x03\x07\xa1\x20\0\xff\x2f\0MTrk\0\0\0\x26\
    \x05\x90\x46\x50\x07\x4a\x50\0\xff\x05\x02la\x83\x4a\x46\0\0\x4a\0\
    \x0f\x48\x50\x8b\x07\x48\0\x0a\x46\x50\x8e\x62\x46\0\0\xff\x2f\0MTrk\0\0\0\x10\
    \0\xc1\0\0\x91\x2e\x40\x9e\0\x81\x2e\x40\0\xff\x2f\0";

/// The content of a header: format 0, one track, and 480 ticks to a quarter note.
const PLAIN: &[u8] = b"\0\0\0\x01\x01\xe0";

/// The four quarter notes and four deltas after them, which lead to tick 1,000,000,000.
const LATEST: &[u8] = b"\0\x90\x3c\x40\x83\x60\x80\x3c\0\0\x90\x3e\x40\x83\x60\x80\x3e\0\
    \0\x90\x40\x40\x83\x60\x80\x40\0\0\x90\x41\x40\x83\x60\x80\x41\0\
    \xff\xff\xff\x7f\xff\x01\0\xff\xff\xff\x7f\xff\x01\0\xff\xff\xff\x7f\xff\x01\0\
    \xdc\xeb\x85\x03\xff\x2f\0";

/// Contents of headers and of tracks, the number of tracks that are read, the number of events, and the last tick.
const READINGS: [(&str, &[u8], &[u8], usize, usize, u64); 8] = [
    ("no tracks", b"\0\0\0\0\x01\xe0", b"\0\xf4", 0, 0, 0),
    (
        "two tracks of format 0",
        b"\0\0\0\x02\x01\xe0",
        b"\x03\x90\x3c\x40",
        2,
        2,
        3,
    ),
    (
        "nine bytes",
        b"\0\x01\0\x01\x01\xe0\xff\xff\xff",
        b"\x03\x90\x3c\x40",
        1,
        1,
        3,
    ),
    ("the latest tick", PLAIN, LATEST, 1, 8, 1_000_000_000),
    ("a meta type of 80", PLAIN, b"\x07\xff\x80\0", 1, 0, 7),
    (
        "a system exclusive event",
        PLAIN,
        b"\x07\xf0\x02\x01\xf7\0\xf7\0",
        1,
        0,
        7,
    ),
    (
        "bytes after the end of track",
        PLAIN,
        b"\x07\xff\x2f\0\xf4",
        1,
        0,
        7,
    ),
    ("no event", PLAIN, b"", 1, 0, 0),
];

/// The events of the four quarter notes.
fn quarters() -> [Event; 8] {
    [
        on(0, 0, 60),
        off(480, 0, 60),
        on(480, 0, 62),
        off(960, 0, 62),
        on(960, 0, 64),
        off(1440, 0, 64),
        on(1440, 0, 65),
        off(1920, 0, 65),
    ]
}

/// The events of the voices, merged.
fn voices() -> [Event; 14] {
    [
        Event {
            tick: 0,
            what: What::Signature { num: 4, dd: 2 },
        },
        Event {
            tick: 0,
            what: What::KeySig(-2),
        },
        Event {
            tick: 0,
            what: What::Tempo(600_000),
        },
        on(0, 1, 46),
        on(5, 0, 70),
        on(12, 0, 74),
        off(470, 0, 70),
        off(470, 0, 74),
        on(485, 0, 72),
        off(1900, 0, 72),
        on(1910, 0, 70),
        Event {
            tick: 1920,
            what: What::Tempo(500_000),
        },
        off(3800, 0, 70),
        off(3840, 1, 46),
    ]
}

/// A note-on.
fn on(tick: u64, channel: u8, key: u8) -> Event {
    Event {
        tick,
        what: What::On { channel, key },
    }
}

/// A note-off.
fn off(tick: u64, channel: u8, key: u8) -> Event {
    Event {
        tick,
        what: What::Off { channel, key },
    }
}

/// A file of a header and two tracks with these contents.
fn file(alloc: Global, header: &[u8], track: &[u8]) -> Result<Vec<u8>, AllocError> {
    let mut bytes = Vec::new(alloc);
    bytes.extend_from_slice(b"MThd\0\0\0")?;
    bytes.push(header.len().min(255) as u8)?;
    bytes.extend_from_slice(header)?;
    for _ in 0..2 {
        bytes.extend_from_slice(b"MTrk\0\0\0")?;
        bytes.push(track.len().min(255) as u8)?;
        bytes.extend_from_slice(track)?;
    }
    Ok(bytes)
}

/// What a file says: its division, the number of its tracks, its events, merged, and its last tick.
type Told = (u16, usize, Vec<Event>, u64);

/// What a file of these bytes says.
fn told(alloc: Global, bytes: &[u8]) -> Option<Told> {
    let smf = read_smf(alloc, bytes).ok()?;
    let events = smf.merged(alloc).ok()?;
    Some((smf.division, smf.tracks.len(), events, smf.last()))
}

#[test]
fn files(rt: HostRuntime) -> Result<(), Fail> {
    for bytes in [QUARTERS, QUARTERS_AND_OTHERS] {
        let (division, _, events, _) = told(rt.alloc(), bytes).ok_or("four quarter notes")?;
        assert_eq!(rt; (division, events.as_slice()), (480, quarters().as_slice()));
    }
    Ok(())
}

#[test]
fn files_of_voices(rt: HostRuntime) -> Result<(), Fail> {
    let (_, _, events, last) = told(rt.alloc(), VOICES).ok_or("voices")?;
    assert_eq!(rt; (events.as_slice(), last), (voices().as_slice(), 3840));
    Ok(())
}

#[test]
fn files_cut_short(rt: HostRuntime) -> Result<(), Fail> {
    for whole in [QUARTERS, VOICES] {
        for length in 0..whole.len() {
            let wanted = if length < 4 {
                SmfFault::NotSmf
            } else {
                SmfFault::Truncated { at: length as u64 }
            };
            let fault = read_smf(rt.alloc(), &whole[..length]).err();
            assert_eq!(rt; fault, Some(wanted), "{length} bytes");
        }
    }
    Ok(())
}

#[test]
fn readings(rt: HostRuntime) -> Result<(), Fail> {
    for (name, header, track, tracks, events, last) in &READINGS {
        let bytes = file(rt.alloc(), header, track)?;
        let (_, read, merged, end) = told(rt.alloc(), bytes.as_slice()).ok_or(*name)?;
        assert_eq!(rt;
            (read, merged.len(), end),
            (*tracks, *events, *last),
            "{name}"
        );
    }
    Ok(())
}
