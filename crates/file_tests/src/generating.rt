ghost use Rattle.std.specs.Prelude.{◌≡◌, ◌<◌, ◌≤◌, IfOk, length};

use rhythm_base::{Bar, Edit, Note, Notes, Performance};
use rhythm_gen::{drill_edit, generate};
use std::alloc::{AllocError, Global};
use std::test::Fail;

/// The file of one bar from the number 7.
const SEVEN: &[u8] = b"MThd\0\0\0\x06\0\x01\0\x03\x01\xe0\
    MTrk\0\0\0\x13\0\xff\x51\x03\x07\xa1\x20\0\xff\x58\x04\x04\x02\x18\x08\0\xff\x2f\0\
    MTrk\0\0\0\x32\x02\x90\x43\x40\x81\x34\x80\x43\0\x3c\x90\x43\x40\x81\x34\x80\x43\0\x48\x90\x43\x40\
    \x81\x34\x80\x43\0\x3c\x90\x43\x40\x81\x34\x80\x43\0\x84\x13\x90\x47\x40\x83\x10\x80\x47\0\x4b\xff\x2f\0\
    MTrk\0\0\0\x28\x10\x91\x3b\x40\x83\x10\x81\x3b\0\x4e\x91\x35\x40\x83\x10\x81\x35\0\
    \x56\x91\x3b\x40\x83\x10\x81\x3b\0\x4c\x91\x31\x40\x83\x10\x81\x31\0\x40\xff\x2f\0";

/// What an edit of a drill says: the channel, the key and the ticks, or the bar and its tick.
#[derive(Clone, Copy, Debug, PartialEq, Eq)]
enum Told {
    Add(u8, u8, u64, u64),
    Drop(u8, u8, u64),
    Move(u8, u8, u64, u64),
    Barline(u32, u64),
}

/// The first edits of the drill of the number 7, on three bars and three notes.
const EDITS: [Told; 8] = [
    Told::Add(0, 74, 3960, 4080),
    Told::Drop(1, 48, 0),
    Told::Move(1, 48, 0, 30),
    Told::Barline(1, 1930),
    Told::Add(0, 79, 2040, 2160),
    Told::Drop(0, 60, 0),
    Told::Move(0, 60, 0, 30),
    Told::Barline(1, 1930),
];

fn said_by(edit: &Edit) -> Option<Told> {
    match edit {
        Edit::Add {
            channel,
            key,
            onset,
            end,
        } => Some(Told::Add(*channel, *key, *onset, *end)),
        Edit::Drop {
            channel,
            key,
            onset,
        } => Some(Told::Drop(*channel, *key, *onset)),
        Edit::Move {
            channel,
            key,
            onset,
            to,
        } => Some(Told::Move(*channel, *key, *onset, *to)),
        Edit::Barline { bar, tick } => Some(Told::Barline(*bar, *tick)),
        _ => None,
    }
}

fn note(channel: u8, key: u8, onset: u64, end: u64) -> Note
    ensures { result ≡ record { channel = channel; key = key; onset = onset; end = end } }
{
    Note {
        channel,
        key,
        onset,
        end,
    }
}

fn bar(start: u64) -> Bar
    ensures { result ≡ record { start = start; num = 4; den = 4 } }
{
    Bar {
        start,
        num: 4,
        den: 4,
    }
}

/// Three bars and three notes.
fn small(alloc: Global) -> Result<Performance, AllocError>
    ensures { IfOk result (λ p. (length p.notes ≡ 3) × (length p.bars ≡ 3) × (p.last ≡ 5760)) }
{
    let bars = vec![in alloc; bar(0), bar(1920), bar(3840)]?;
    let channels = vec![in alloc; 0u8, 1u8]?;
    let notes = vec![in alloc;
        note(0, 60, 0, 400),
        note(0, 64, 480, 880),
        note(1, 48, 0, 1920),
    ]?;
    let listed = Notes::new(alloc, notes.as_slice())?;
    Performance::make(
        480,
        Vec::new(alloc),
        Vec::new(alloc),
        bars,
        5760,
        channels,
        listed,
        Vec::new(alloc),
    )
}

#[test]
fn file_of_seven(rt: HostRuntime) -> Result<(), Fail> {
    let bytes = generate(rt.alloc(), 7, 1)?;
    assert_eq!(rt; bytes.as_slice(), SEVEN);
    Ok(())
}

#[test]
fn drill_of_seven(rt: HostRuntime) -> Result<(), Fail> {
    let performance = small(rt.alloc())?;
    for (index, wanted) in EDITS.iter().enumerate() {
        let edit = drill_edit(7, index as u32, &performance);
        assert_eq!(rt; said_by(&edit), Some(*wanted));
    }
    Ok(())
}
