use crate::running::{Ports, run_over, words_of};
use rhythm_ports::{Gate, MemShelf, MemSink, MemSource};
use std::alloc::{AllocError, Global};
use std::thread::Threads;

/// The words of a run, its files by their names, and its script.
#[derive(Clone, Copy)]
pub struct Given<'a> {
    pub words: &'a [&'a str],
    pub files: &'a [(&'a str, &'a [u8])],
    pub script: &'a [u8],
}

/// What a run calls.
#[derive(Clone, Copy, PartialEq, Eq)]
pub enum Port {
    Shelf,
    Script,
    Out,
    Err,
}

/// The call that fails: of which port, and its number, from 0.
#[derive(Clone, Copy)]
pub struct Failing {
    pub port: Port,
    pub call: u64,
}

/// No call fails: none has this number.
pub const NONE_FAILS: Failing = Failing {
    port: Port::Err,
    call: u64::MAX,
};

impl Failing {
    /// The numbers of the calls of a port that fail.
    fn calls_of(self, alloc: Global, port: Port) -> Result<Vec<u64>, AllocError> {
        if self.port != port {
            return Ok(Vec::new(alloc));
        }
        Vec::from_slice(alloc, &[self.call])
    }
}

/// How a run ends, and what out and err take.
#[derive(Clone, Copy)]
pub struct Ending<'a> {
    pub status: u8,
    pub out: &'a [u8],
    pub err: &'a [u8],
}

/// How a run ended, how many tables it built, how many products of tables it made, and what out and err took.
#[derive(Drop)]
pub struct Taken {
    pub status: u8,
    pub builds: u64,
    pub products: u64,
    pub out: MemSink,
    pub err: MemSink,
}

impl Taken {
    /// Whether it is this ending.
    pub fn is(&self, ending: &Ending<'_>) -> bool {
        self.status == ending.status
            && self.out.bytes() == ending.out
            && self.err.bytes() == ending.err
    }
}

/// A shelf with the files. A call moves at most so many bytes, of which 0 counts as 1, and some fail.
pub fn shelf_of(
    alloc: Global,
    most: usize,
    failing: Vec<u64>,
    files: &[(&str, &[u8])],
) -> Result<MemShelf, AllocError> {
    let mut shelf = MemShelf::new(alloc, most.max(1), failing);
    'files: for (name, bytes) in files {
        shelf.put(name, Vec::from_slice(alloc, bytes)?)?;
    }
    Ok(shelf)
}

/// Runs the program on what is given, where a call moves at most so many bytes and one fails.
pub fn end_of<R: Threads + Sync, G: Gate + Sync>(
    rt: &R,
    alloc: Global,
    most: usize,
    given: &Given<'_>,
    failing: Failing,
    gate: &G,
) -> Result<Taken, AllocError> {
    let most = most.max(1);
    let words = words_of(alloc, given.words)?;
    let mut shelf = shelf_of(
        alloc,
        most,
        failing.calls_of(alloc, Port::Shelf)?,
        given.files,
    )?;
    let script = Vec::from_slice(alloc, given.script)?;
    let mut script = MemSource::new(script, most, failing.calls_of(alloc, Port::Script)?);
    let mut out = MemSink::new(alloc, most, failing.calls_of(alloc, Port::Out)?);
    let mut err = MemSink::new(alloc, most, failing.calls_of(alloc, Port::Err)?);
    let ports = Ports {
        shelf: &mut shelf,
        script: &mut script,
        out: &mut out,
        err: &mut err,
    };
    let ran = run_over(rt, alloc, &words, ports, gate);
    Ok(Taken {
        status: ran.status,
        builds: ran.builds,
        products: ran.products,
        out,
        err,
    })
}
