ghost use Rattle.rhythm_base.specs.declared.limits.TheConstants.{LATEST_TICK};
ghost use Rattle.std.specs.Prelude.{◌≡◌, ◌≤◌, ◌+◌};

use edit_script::{Command, read_line};
use performance_edit::{copied, edited};
use rhythm_base::{Bar, EditFault, Note, Notes, Performance};
use std::alloc::{AllocError, Global};
use std::test::Fail;

/// Lines whose edits are made one after another from the four quarter notes on, and what is there after each: the
/// starts of the bars, the last barline, the notes by key, onset and end, and the pins by bar.
const MADE: [(&str, &str); 17] = [
    (
        "add 0 64 10 480",
        "0 | 1920 | 60@0-480 64@10-480 62@480-960 64@960-1440 65@1440-1920 |",
    ),
    (
        "drop 0 64 10",
        "0 | 1920 | 60@0-480 62@480-960 64@960-1440 65@1440-1920 |",
    ),
    (
        "move 0 60 0 700",
        "0 | 1920 | 62@480-960 60@700-1180 64@960-1440 65@1440-1920 |",
    ),
    (
        "move 0 60 700 0",
        "0 | 1920 | 60@0-480 62@480-960 64@960-1440 65@1440-1920 |",
    ),
    (
        "move 0 60 0 0",
        "0 | 1920 | 60@0-480 62@480-960 64@960-1440 65@1440-1920 |",
    ),
    (
        "addbar",
        "0 1920 | 3840 | 60@0-480 62@480-960 64@960-1440 65@1440-1920 |",
    ),
    (
        "dropbar",
        "0 | 1920 | 60@0-480 62@480-960 64@960-1440 65@1440-1920 |",
    ),
    (
        "barline 1 2000",
        "0 | 2000 | 60@0-480 62@480-960 64@960-1440 65@1440-1920 |",
    ),
    (
        "addbar",
        "0 2000 | 3920 | 60@0-480 62@480-960 64@960-1440 65@1440-1920 |",
    ),
    (
        "barline 1 1920",
        "0 1920 | 3920 | 60@0-480 62@480-960 64@960-1440 65@1440-1920 |",
    ),
    (
        "pin 0 1 .",
        "0 1920 | 3920 | 60@0-480 62@480-960 64@960-1440 65@1440-1920 | 1 .",
    ),
    (
        "pin 0 0 2(. .)",
        "0 1920 | 3920 | 60@0-480 62@480-960 64@960-1440 65@1440-1920 | 0 2(. .) 1 .",
    ),
    (
        "pin 0 1 3(. . .)",
        "0 1920 | 3920 | 60@0-480 62@480-960 64@960-1440 65@1440-1920 | 0 2(. .) 1 3(. . .)",
    ),
    (
        "dropbar",
        "0 | 1920 | 60@0-480 62@480-960 64@960-1440 65@1440-1920 | 0 2(. .)",
    ),
    (
        "unpin 0 0",
        "0 | 1920 | 60@0-480 62@480-960 64@960-1440 65@1440-1920 |",
    ),
    (
        "unpin 0 0",
        "0 | 1920 | 60@0-480 62@480-960 64@960-1440 65@1440-1920 |",
    ),
    (
        "add 0 60 480 480",
        "0 | 1920 | 60@0-480 60@480-480 62@480-960 64@960-1440 65@1440-1920 |",
    ),
];

/// A quarter note at 480 ticks to the quarter.
fn quarter(key: u8, onset: u64) -> Note
    requires { onset ≤ LATEST_TICK }
    ensures { result ≡ record { channel = 0; key = key; onset = onset; end = onset + 480 } }
{
    Note {
        channel: 0,
        key,
        onset,
        end: onset + 480,
    }
}

/// A voice of four quarter notes in one bar of 4/4, at 480 ticks to the quarter.
fn four_quarters(alloc: Global) -> Result<Performance, AllocError> {
    let bar = Bar {
        start: 0,
        num: 4,
        den: 4,
    };
    let bars = vec![in alloc; bar]?;
    let channels = vec![in alloc; 0u8]?;
    let notes = vec![in alloc;
        quarter(60, 0),
        quarter(62, 480),
        quarter(64, 960),
        quarter(65, 1440),
    ]?;
    let listed = Notes::new(alloc, notes.as_slice())?;
    Performance::make(
        480,
        Vec::new(alloc),
        Vec::new(alloc),
        bars,
        1920,
        channels,
        listed,
        Vec::new(alloc),
    )
}

/// The bars, the last barline, the notes and the pins of a performance of one voice in words.
fn shown(alloc: Global, performance: &Performance) -> Result<String, AllocError> {
    let mut text = String::new(alloc);
    for bar in performance.bars() {
        write!(text, "{} ", bar.start)?;
    }
    write!(text, "| {} |", performance.last())?;
    let notes = performance.notes();
    for note in notes.range(alloc, 0, notes.len())?.as_slice() {
        write!(text, " {}@{}-{}", note.key, note.onset, note.end)?;
    }
    text.push_str(" |")?;
    for pin in performance.pins() {
        let shape = pin.shape.text(alloc)?;
        write!(text, " {} {shape}", pin.bar)?;
    }
    Ok(text)
}

/// The performance after the edit of a line.
fn after(alloc: Global, performance: &Performance, line: &str) -> Result<Performance, EditFault> {
    match read_line(alloc, line.as_bytes()) {
        Ok(Command::Change(edit)) => edited(alloc, performance, &edit),
        _ => Err(EditFault::Memory),
    }
}

#[test]
fn edits_are_made(rt: HostRuntime) -> Result<(), Fail> {
    let mut performance = four_quarters(rt.alloc())?;
    for (line, text) in MADE {
        performance = after(rt.alloc(), &performance, line)?;
        let is = shown(rt.alloc(), &performance)?;
        assert!(rt; is.as_str() == text, "{line}: {is}");
        let copy = shown(rt.alloc(), &copied(&performance)?)?;
        assert!(rt; copy.as_str() == text, "{line}: {copy}");
    }
    Ok(())
}
