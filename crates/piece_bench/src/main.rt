//! Transcribes a piece that is made from a number, up to a stage, and prints what that stage gave. With no words it goes all the
//! way for a piece of 20 bars. The words STAGE BARS name the last stage, and the bars of the piece, 1 to 2000: a run up to one
//! stage less a run up to the one before gives the time of the stage.
#![tactic(auto)]

mod piece;
mod stage;

use piece::{grammar_of, midi_of};
use rhythm_gen::PieceBars;
use rhythm_ports::OpenGate;
use stage::{Figure, Stage, reached};
use std::alloc::Global;
use std::env;
use std::io::{self, ErrorKind};
use std::thread::Threads;

/// The words after the program's name, where they are a stage and a number of bars.
fn task_of(words: &[String]) -> Option<(Stage, u32)> {
    match words {
        [stage, bars] => Some((
            Stage::named(stage.as_str())?,
            bars.as_str().parse::<u32>().ok()?,
        )),
        _ => None,
    }
}

/// Goes up to the stage and prints what it gave.
fn run<R: Threads + Sync + Print>(
    rt: &R,
    alloc: Global,
    stage: Stage,
    bars: u32,
) -> io::Result<()> {
    let Some(bars) = PieceBars::new(bars) else {
        return Err(io::Error::from(ErrorKind::InvalidInput));
    };
    let bytes = midi_of(alloc, bars)?;
    let grammar = grammar_of(alloc)?;
    match reached(rt, alloc, bytes.as_slice(), grammar, stage, &OpenGate) {
        Some(Figure::Events(count)) => println!(rt; "{count} events"),
        Some(Figure::Notes(count)) => println!(rt; "{count} notes"),
        Some(Figure::Cost(cost)) => println!(rt; "cost {cost}"),
        Some(Figure::Score(length)) => println!(rt; "{length} bytes of score"),
        None => Err(io::Error::from(ErrorKind::InvalidInput)),
    }
}

fn main(rt: HostRuntime) -> io::Result<()> {
    let alloc = rt.alloc();
    let mut words = Vec::new(alloc);
    for word in env::args(&rt)?.skip(1) {
        words.push(word)?;
    }
    if let Some((stage, bars)) = task_of(words.as_slice()) {
        return run(&rt, alloc, stage, bars);
    }
    if !words.is_empty() {
        return Err(io::Error::from(ErrorKind::InvalidInput));
    }
    for stage in [Stage::Read, Stage::Load, Stage::Open, Stage::Score] {
        run(&rt, alloc, stage, 20)?;
    }
    Ok(())
}
