ghost use Rattle.std.specs.Prelude.{◌≡◌, None};

use crate::files::{FOUR_QUARTERS, WHOLE_NOTE};
use crate::given::shelf_of;
use crate::grammars::USUAL;
use crate::running::{Ports, Ran, run_over, words_of};
use crate::talks::{
    CHORD_COMES_AND_GOES, Exchange, NOTE_JOINS_A_CHORD, NOTE_OVER_THREE_BARS, RHYTHMS_OF_A_BAR,
    lines_within, replies_to, script_of,
};
use rhythm_ports::{Failed, MemSink, MemSource, OpenGate, Sink, Source};
use std::alloc::{AllocError, Global};
use std::sync::atomic::{AtomicU64, Ordering};
use std::test::Fail;
use std::thread::Threads;

/// How many newlines the bytes have.
fn newlines(bytes: &[u8]) -> u64 {
    let mut count = 0u64;
    'bytes: for byte in bytes {
        if *byte == b'\n' {
            count = count.saturating_add(1);
        }
    }
    count
}

/// How many lines the replies to the first lines of the talk have.
fn reply_lines(talk: &[Exchange], lines: usize) -> u64 {
    let mut count = 0u64;
    'replies: for (_line, reply) in talk.iter().take(lines) {
        count = count.saturating_add(newlines(reply));
    }
    count
}

/// What a script and the sink of its replies know of each other.
#[derive(Drop)]
struct Turns {
    /// How many lines the replies to the whole lines have that were given.
    due: AtomicU64,
    /// How many lines of replies were taken.
    taken: AtomicU64,
}

/// The parts in which a script is given.
#[derive(Clone, Copy)]
enum Parts {
    HalfLines,
    Lines,
    PairsOfLines,
}

/// Where the parts of the script end.
fn ends_of(alloc: Global, talk: &[Exchange], parts: Parts) -> Result<Vec<usize>, AllocError> {
    let mut ends = Vec::new(alloc);
    let mut start = 0usize;
    let mut is_second = false;
    'lines: for (line, _reply) in talk {
        let end = start.saturating_add(line.len());
        match parts {
            Parts::HalfLines => ends.extend_from_slice(&[
                start.saturating_add(line.len() / 2),
                end,
            ])?,
            Parts::PairsOfLines if !is_second => {}
            Parts::Lines | Parts::PairsOfLines => ends.push(end)?,
        }
        is_second = !is_second;
        start = end;
    }
    ends.push(start)?;
    Ok(ends)
}

/// A script that is given in parts. It fails where it is read before the replies to the whole lines that it gave were taken.
#[derive(Drop)]
struct Asking<'a> {
    turns: &'a Turns,
    talk: &'static [Exchange],
    script: MemSource,
    ends: Vec<usize>,
    given: usize,
    faults: u64,
}

impl Asking<'_> {
    /// How many bytes of the part that was begun are left.
    fn left(&self) -> usize {
        'ends: for end in &self.ends {
            if self.given < *end {
                return *end - self.given;
            }
        }
        0
    }

    /// Counts bytes that were given, and the replies that are due for them.
    fn give(&mut self, count: usize)
        ensures { self.new.faults ≡ self.old.faults }
    {
        self.given = self.given.saturating_add(count);
        let lines = lines_within(self.talk, self.given, count == 0);
        self.turns
            .due
            .store(reply_lines(self.talk, lines), Ordering::SeqCst);
    }
}

impl Source for Asking<'_> {
    ghost rest = { λ _. None };

    ghost faults = { λ s. s.faults };

    fn read(&mut self, buf: &mut [u8]) -> Result<usize, Failed> {
        let due = self.turns.due.load(Ordering::SeqCst);
        let room = buf.len().min(self.left());
        if self.turns.taken.load(Ordering::SeqCst) == due {
            if let Ok(count) = self.script.read(&mut buf[..room]) {
                self.give(count);
                return Ok(count);
            }
        }
        self.faults = self.faults.saturating_add(1);
        Err(Failed)
    }
}

/// A sink of replies. It fails where it is to take more than the replies to the whole lines that were given.
#[derive(Drop)]
struct Answered<'a> {
    turns: &'a Turns,
    replies: MemSink,
    faults: u64,
}

impl Sink for Answered<'_> {
    ghost taken = { λ _. None };

    ghost faults = { λ s. s.faults };

    fn write(&mut self, piece: &[u8]) -> Result<usize, Failed> {
        let taken = self.turns.taken.load(Ordering::SeqCst);
        if taken < self.turns.due.load(Ordering::SeqCst) {
            if let Ok(count) = self.replies.write(piece) {
                self.turns
                    .taken
                    .fetch_add(newlines(&piece[..count]), Ordering::SeqCst);
                return Ok(count);
            }
        }
        self.faults = self.faults.saturating_add(1);
        Err(Failed)
    }
}

/// Whether each line of the talk over the MIDI file is answered when it is whole, and before the next part is read, by the command of
/// this word.
fn takes_turns<R: Threads + Sync>(
    rt: &R,
    alloc: Global,
    command: &str,
    most: usize,
    midi: &[u8],
    talk: &'static [Exchange],
    parts: Parts,
) -> Result<bool, AllocError> {
    let most = most.max(1);
    let words = words_of(alloc, &[command, "a.mid", "a.grammar"])?;
    let turns = Turns {
        due: AtomicU64::new(0),
        taken: AtomicU64::new(0),
    };
    let mut script = Asking {
        turns: &turns,
        talk,
        script: MemSource::new(script_of(alloc, talk)?, most, Vec::new(alloc)),
        ends: ends_of(alloc, talk, parts)?,
        given: 0,
        faults: 0,
    };
    let mut out = Answered {
        turns: &turns,
        replies: MemSink::new(alloc, most, Vec::new(alloc)),
        faults: 0,
    };
    let files = [("a.mid", midi), ("a.grammar", USUAL)];
    let ports = Ports {
        shelf: &mut shelf_of(alloc, 4096, Vec::new(alloc), &files)?,
        script: &mut script,
        out: &mut out,
        err: &mut MemSink::new(alloc, 4096, Vec::new(alloc)),
    };
    let ran = run_over(rt, alloc, &words, ports, &OpenGate);
    let replies = replies_to(alloc, talk, talk.len())?;
    Ok(ran.status == 0 && out.replies.bytes() == replies.as_slice())
}

#[test]
fn a_line_is_answered_before_the_next_is_read(rt: HostRuntime) -> Result<(), Fail> {
    for (command, midi, talk) in [
        ("edit", FOUR_QUARTERS, NOTE_JOINS_A_CHORD),
        ("edit", WHOLE_NOTE, NOTE_OVER_THREE_BARS),
        ("edit", FOUR_QUARTERS, RHYTHMS_OF_A_BAR),
        ("studio", FOUR_QUARTERS, CHORD_COMES_AND_GOES),
    ] {
        for parts in [Parts::HalfLines, Parts::Lines, Parts::PairsOfLines] {
            for most in [1, 2, 3, 4096] {
                assert!(rt;
                    takes_turns(&rt, rt.alloc(), command, most, midi, talk, parts)?,
                    "{command} by {most}"
                );
            }
        }
    }
    Ok(())
}
