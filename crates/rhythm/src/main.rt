//! The program: gives the words of the command line, the system's files and its standard streams to `run`, which does
//! the rest.
#![tactic(auto)]

ghost use Rattle.rhythm_app.specs.Stops.{status_of};
ghost use Rattle.std.specs.Prelude.{◌≡◌, ◌⊎◌};

use carry_matrix::Steps as Products;
use least_cost::Steps as Builds;
use rhythm_app::{Lent, Stop, World, run, write_line};
use rhythm_base::{Tag, Words};
use rhythm_ports::{OpenGate, RealInput, RealOutput, RealShelf};
use std::io::{ErrorKind, Stderr, Stdin, Stdout};
use std::marker::PhantomData;
use std::process::ExitCode;
use std::rt::Files;
use std::thread::Threads;
use std::{env, io};

/// What the tables of a run and their products are counted for.
#[derive(Clone, Copy)]
struct InRun;

impl Tag for InRun {}

/// The system: its files and its standard streams.
struct System<R>(PhantomData<R>);

impl<R: Threads + Sync + Files + Drop> World for System<R> {
    type Runtime = R;

    type Shelf = RealShelf<R>;

    type Script = RealInput<Stdin>;

    type Out = RealOutput<Stdout>;

    type Err = RealOutput<Stderr>;

    type Gate = OpenGate;

    type Counted = InRun;
}

/// The words after the program's name.
fn words_of(rt: &HostRuntime) -> io::Result<Words> {
    let mut words = Words::new(rt.alloc());
    for word in env::args(rt)?.skip(1) {
        words.push(word.as_str())?;
    }
    Ok(words)
}

/// Why there are no words: one that is no text is no word of a command.
fn wordless(error: &io::Error) -> Stop
    ensures { (status_of result ≡ 1) ⊎ (status_of result ≡ 7) }
{
    match error.kind() {
        ErrorKind::InvalidData => Stop::Usage,
        _ => Stop::Memory,
    }
}

fn main(rt: HostRuntime) -> ExitCode {
    let mut err = RealOutput::new(rt.stderr());
    let words = match words_of(&rt) {
        Ok(words) => words,
        Err(error) => {
            let stop = wordless(&error);
            write_line(&mut err, &stop);
            return ExitCode::from(stop.status());
        }
    };
    let mut lent: Lent<System<HostRuntime>> = Lent {
        rt,
        alloc: rt.alloc(),
        shelf: RealShelf::new(rt),
        script: RealInput::new(rt.stdin()),
        out: RealOutput::new(rt.stdout()),
        err,
        gate: OpenGate,
        builds: Builds::zero(),
        products: Products::zero(),
    };
    ExitCode::from(run(&mut lent, &words))
}
