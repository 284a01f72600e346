use crate::lending::Lending;
use carry_matrix::Steps as Products;
use least_cost::Steps as Builds;
use rhythm_app::{Lent, World, run};
use rhythm_base::{Tag, Words};
use rhythm_ports::{Gate, Shelf, Sink, Source};
use std::alloc::{AllocError, Global};
use std::marker::PhantomData;
use std::thread::Threads;

/// What the tables of these runs are counted for.
#[derive(Clone, Copy)]
pub struct InTests;

impl Tag for InTests {}

/// The words as a list.
pub fn words_of(alloc: Global, words: &[&str]) -> Result<Words, AllocError> {
    let mut list = Words::new(alloc);
    'words: for word in words {
        list.push(word)?;
    }
    Ok(list)
}

/// How a run ended, how many tables it built, and how many products of tables it made.
#[derive(Clone, Copy)]
pub struct Ran {
    pub status: u8,
    pub builds: u64,
    pub products: u64,
}

/// What a run reads from and writes to.
pub struct Ports<'a, F, S, O, E> {
    pub shelf: &'a mut F,
    pub script: &'a mut S,
    pub out: &'a mut O,
    pub err: &'a mut E,
}

/// The kinds of what these runs are lent.
struct Kinds<R, F, S, O, E, G>(PhantomData<(R, F, S, O, E, G)>);

impl<R: Threads + Sync, F: Shelf, S: Source, O: Sink, E: Sink, G: Gate + Sync> World
    for Kinds<R, F, S, O, E, G> {
    type Runtime = R;

    type Shelf = F;

    type Script = S;

    type Out = O;

    type Err = E;

    type Gate = G;

    type Counted = InTests;
}

/// A gate that is lent to a run and looked at afterwards.
#[derive(Drop)]
struct Passing<'a, G> {
    to: &'a G,
}

impl<'a, G: Gate> Gate for Passing<'a, G> {
    fn pass(&self, index: u64) {
        self.to.pass(index);
    }
}

/// Runs the program over ports of its own. No other function of these tests makes the top call.
fn run_with<
    R: Threads + Sync + Drop,
    F: Shelf + Drop,
    S: Source + Drop,
    O: Sink + Drop,
    E: Sink + Drop,
    G: Gate + Sync + Drop,
>(rt: R, alloc: Global, words: &Words, ports: (F, S, O, E), gate: G) -> Ran {
    let (shelf, script, out, err) = ports;
    let mut lent: Lent<Kinds<R, F, S, O, E, G>> = Lent {
        rt,
        alloc,
        shelf,
        script,
        out,
        err,
        gate,
        builds: Builds::zero(),
        products: Products::zero(),
    };
    let status = run(&mut lent, words);
    Ran {
        status,
        builds: lent.builds.count(),
        products: lent.products.count(),
    }
}

/// Runs the program over ports that are lent to it.
pub fn run_over<R: Threads + Sync, F: Shelf, S: Source, O: Sink, E: Sink, G: Gate + Sync>(
    rt: &R,
    alloc: Global,
    words: &Words,
    ports: Ports<'_, F, S, O, E>,
    gate: &G,
) -> Ran {
    let Ports {
        shelf,
        script,
        out,
        err,
    } = ports;
    let lent = (
        Lending { to: shelf },
        Lending { to: script },
        Lending { to: out },
        Lending { to: err },
    );
    run_with(rt, alloc, words, lent, Passing { to: gate })
}
