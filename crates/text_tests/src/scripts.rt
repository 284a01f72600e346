use edit_script::{Alt, Command, LineFault, Refusal, Reply, read_line, write_reply};
use rhythm_base::{Edit, EditFault, LimitKind};
use rhythm_ports::MemSink;
use std::alloc::{AllocError, Global};
use std::test::Fail;

/// An edit in words.
fn edit_text(alloc: Global, edit: &Edit) -> Result<String, AllocError> {
    match edit {
        Edit::Add {
            channel,
            key,
            onset,
            end,
        } => format!(in alloc; "add {channel} {key} {onset} {end}"),
        Edit::Drop {
            channel,
            key,
            onset,
        } => format!(in alloc; "drop {channel} {key} {onset}"),
        Edit::Move {
            channel,
            key,
            onset,
            to,
        } => format!(in alloc; "move {channel} {key} {onset} {to}"),
        Edit::Barline { bar, tick } => format!(in alloc; "barline {bar} {tick}"),
        Edit::Pin {
            channel,
            bar,
            shape,
        } => {
            let shape = shape.text(alloc)?;
            format!(in alloc; "pin {channel} {bar} {shape}")
        }
        Edit::Unpin { channel, bar } => format!(in alloc; "unpin {channel} {bar}"),
        Edit::AddBar => format!(in alloc; "addbar"),
        Edit::DropBar => format!(in alloc; "dropbar"),
    }
}

/// What a line says, in words with plain numbers.
fn said(alloc: Global, line: &[u8]) -> Result<String, AllocError> {
    match read_line(alloc, line) {
        Ok(Command::Change(edit)) => edit_text(alloc, &edit),
        Ok(Command::Score) => format!(in alloc; "score"),
        Ok(
            Command::Alternatives {
                channel,
                bar,
                count,
            },
        ) => format!(in alloc; "alt {channel} {bar} {count}"),
        Ok(Command::Quit) => format!(in alloc; "quit"),
        Err(LineFault::BadLine) => format!(in alloc; "bad line"),
        Err(LineFault::Memory) => format!(in alloc; "memory"),
    }
}

/// Lines, and what they say: each kind with the greatest numbers, other spellings, and lines that are none.
const LINES: [(&[u8], &[u8]); 16] = [
    (
        b"add 15 127 2000000000 2000000000",
        b"add 15 127 2000000000 2000000000",
    ),
    (b"drop 15 127 2000000000", b"drop 15 127 2000000000"),
    (b"move 15 127 2000000000 0", b"move 15 127 2000000000 0"),
    (b"barline 4096 2000000000", b"barline 4096 2000000000"),
    (
        b"pin 15 4096 2(2(. .) 3(. . .))",
        b"pin 15 4096 2(2(. .) 3(. . .))",
    ),
    (b"unpin 15 4096", b"unpin 15 4096"),
    (b"addbar", b"addbar"),
    (b"dropbar", b"dropbar"),
    (b"score", b"score"),
    (b"alt 15 4096 16", b"alt 15 4096 16"),
    (b"quit", b"quit"),
    (b"add 00 064 0000000010 480\r", b"add 0 64 10 480"),
    (b"pin 000 0001 .", b"pin 0 1 ."),
    (b"", b"bad line"),
    (b"quit\n", b"bad line"),
    (b"pin 0 0 \xff", b"bad line"),
];

#[test]
fn lines_say_commands(rt: HostRuntime) -> Result<(), Fail> {
    for (line, command) in LINES {
        assert_eq!(rt; said(rt.alloc(), line)?.as_bytes(), command);
    }
    Ok(())
}

/// Whether the reply has the text, and a sink that fails at any one call took so much of it as the answer says.
fn is_written(alloc: Global, reply: &Reply, text: &[u8]) -> Result<bool, AllocError> {
    let mut sink = MemSink::new(alloc, 3, Vec::new(alloc));
    if write_reply(&mut sink, reply).is_err() || sink.bytes() != text {
        return Ok(false);
    }
    for failing in 0..text.len() as u64 {
        let mut sink = MemSink::new(alloc, 1, [failing].to_vec(alloc)?);
        let Err(partial) = write_reply(&mut sink, reply) else {
            return Ok(false);
        };
        if partial.sent as u64 != failing
            || sink.bytes().len() != partial.sent
            || !text.starts_with(sink.bytes())
        {
            return Ok(false);
        }
    }
    Ok(true)
}

#[test]
fn edits_are_answered(rt: HostRuntime) -> Result<(), Fail> {
    for (built, cost, text) in [
        (0, 100, "ok 0 100\n"),
        (18446744073709551615, 0, "ok 18446744073709551615 0\n"),
        (0, 18446744073709551615, "ok 0 18446744073709551615\n"),
    ] {
        let reply = Reply::Done { built, cost };
        assert!(rt; is_written(rt.alloc(), &reply, text.as_bytes())?, "{text}");
    }
    assert!(rt; is_written(rt.alloc(), &Reply::Bye, b"bye\n")?);
    Ok(())
}

#[test]
fn refusals_are_answered(rt: HostRuntime) -> Result<(), Fail> {
    for (fault, text) in [
        (EditFault::NoVoice(1), "refused NoVoice 1\n"),
        (EditFault::NoBar(3), "refused NoBar 3\n"),
        (EditFault::BadSpan, "refused BadSpan\n"),
        (EditFault::NoNote, "refused NoNote\n"),
        (EditFault::SameNote, "refused SameNote\n"),
        (EditFault::PastEnd { last: 1920 }, "refused PastEnd 1920\n"),
        (
            EditFault::BarlineOrder { low: 0, high: 3840 },
            "refused BarlineOrder 0 3840\n",
        ),
        (
            EditFault::NoteOutside { onset: 960 },
            "refused NoteOutside 960\n",
        ),
        (
            EditFault::NotEmpty { onset: 1920 },
            "refused NotEmpty 1920\n",
        ),
        (EditFault::OneBar, "refused OneBar\n"),
        (
            EditFault::Limit {
                what: LimitKind::Notes,
                count: 65_537,
            },
            "refused Limit notes 65537\n",
        ),
        (
            EditFault::Limit {
                what: LimitKind::Bars,
                count: 4_097,
            },
            "refused Limit bars 4097\n",
        ),
        (
            EditFault::Limit {
                what: LimitKind::Cells,
                count: 16_385,
            },
            "refused Limit cells 16385\n",
        ),
        (
            EditFault::Limit {
                what: LimitKind::Line,
                count: 2_000_000_001,
            },
            "refused Limit line 2000000001\n",
        ),
        (
            EditFault::NoDerivation { channel: 0, bar: 2 },
            "refused NoDerivation 0 2\n",
        ),
        (EditFault::Memory, "refused Memory\n"),
    ] {
        let reply = Reply::Refused(Refusal::Edit(fault));
        assert!(rt; is_written(rt.alloc(), &reply, text.as_bytes())?, "{text}");
    }
    for (refusal, text) in [
        (Refusal::Line, "refused Line\n"),
        (
            Refusal::ScoreTooLong {
                line: 4_000_000_000,
            },
            "refused Limit score 4000000000\n",
        ),
    ] {
        assert!(rt;
            is_written(rt.alloc(), &Reply::Refused(refusal), text.as_bytes())?,
            "{text}"
        );
    }
    Ok(())
}

#[test]
fn scores_are_answered(rt: HostRuntime) -> Result<(), Fail> {
    for (score, text) in [
        ("", "score 0\n"),
        (
            "**kern\n*M4/4\n*MM120\n=1\n[1c\n=2\n1c_\n=3\n1c]\n==\n*-\n",
            "score 47\n**kern\n*M4/4\n*MM120\n=1\n[1c\n=2\n1c_\n=3\n1c]\n==\n*-\n",
        ),
    ] {
        let reply = Reply::Text(score.as_bytes().to_vec(rt.alloc())?);
        assert!(rt; is_written(rt.alloc(), &reply, text.as_bytes())?, "{text}");
    }
    Ok(())
}

#[test]
fn alternatives_are_answered(rt: HostRuntime) -> Result<(), Fail> {
    let alloc = rt.alloc();
    let first = Alt {
        total: 100,
        shape: String::from_str(alloc, "2(2(. .) 2(. .))")?,
        rules: [3, 7, 8, 8, 7, 8, 8].to_vec(alloc)?,
    };
    let second = Alt {
        total: 150,
        shape: String::from_str(alloc, "2(2(. .) 2(. 2(. .)))")?,
        rules: [3, 7, 8, 8, 7, 8, 12, 13, 15].to_vec(alloc)?,
    };
    let leaf = Alt {
        total: 0,
        shape: String::from_str(alloc, ".")?,
        rules: [0].to_vec(alloc)?,
    };
    for (alts, text) in [
        (Vec::new(alloc), "alternatives 0\n"),
        (vec![in alloc; leaf]?, "alternatives 1\nalt 0 . 0\n"),
        (
            vec![in alloc; first, second]?,
            "alternatives 2\nalt 100 2(2(. .) 2(. .)) 3,7,8,8,7,8,8\nalt 150 2(2(. .) 2(. 2(. .))) 3,7,8,8,7,8,12,13,15\n",
        ),
    ] {
        assert!(rt;
            is_written(alloc, &Reply::List(alts), text.as_bytes())?,
            "{text}"
        );
    }
    Ok(())
}
