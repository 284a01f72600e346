ghost use Rattle.rhythm_base.specs.Readable.{IsReadable};
ghost use Rattle.rhythm_base.specs.declared.limits.TheConstants.{MOST_NOTES};
ghost use Rattle.smf_reader.specs.Ranges.{IsPlayedFile};
ghost use Rattle.std.specs.Prelude.{◌≤◌, IfSome, length};

use carry_matrix::Steps as Products;
use edit_session::Session;
use least_cost::Steps as Builds;
use performance_load::load;
use rhythm_base::{Grammar, Performance, Tag};
use rhythm_ports::{Gate, Means};
use session_text::KernText;
use smf_reader::{Smf, read_smf};
use std::alloc::Global;
use std::thread::Threads;

/// What the counters of this program count for.
#[derive(Clone, Copy)]
struct Benchmark;

impl Tag for Benchmark {}

/// The stages of a transcription, in their order.
#[derive(Clone, Copy, Debug, PartialEq, Eq)]
pub enum Stage {
    /// The MIDI file is read.
    Read,
    /// Its performance is made.
    Load,
    /// A session is opened on it, so that its cost is known.
    Open,
    /// The score is written.
    Score,
}

impl Stage {
    /// The stage of that name.
    pub fn named(name: &str) -> Option<Stage> {
        match name {
            "read" => Some(Stage::Read),
            "load" => Some(Stage::Load),
            "open" => Some(Stage::Open),
            "score" => Some(Stage::Score),
            _ => None,
        }
    }
}

/// What the last stage gave, as a figure.
#[derive(Clone, Copy, Debug, PartialEq, Eq)]
pub enum Figure {
    /// The number of events of the last track.
    Events(usize),
    /// The number of notes.
    Notes(usize),
    /// The least cost of all voices.
    Cost(u64),
    /// The length of the score in bytes.
    Score(usize),
}

/// What the MIDI file says.
fn played_in(alloc: Global, bytes: &[u8]) -> Option<Smf>
    ensures { IfSome result IsPlayedFile }
{
    match read_smf(alloc, bytes) {
        Ok(played) => Some(played),
        Err(_) => None,
    }
}

/// The performance of the file.
fn performance_of(alloc: Global, played: &Smf) -> Option<Performance>
    requires { IsPlayedFile played.now }
    ensures { IfSome result (λ p. length p.notes ≤ MOST_NOTES) }
{
    match load(alloc, played) {
        Ok(performance) => Some(performance),
        Err(_) => None,
    }
}

/// The number of the events of the last track.
fn events_in(played: &Smf) -> usize {
    match played.tracks.as_slice() {
        [] => 0,
        [.., track] => track.events.len(),
    }
}

/// Goes up to the stage, and answers none where a stage refuses what the one before gave.
pub fn reached<R: Threads + Sync, G: Gate + Sync>(
    rt: &R,
    alloc: Global,
    bytes: &[u8],
    grammar: Grammar,
    stage: Stage,
    gate: &G,
) -> Option<Figure>
    requires { IsReadable grammar }
{
    let played = played_in(alloc, bytes)?;
    if stage == Stage::Read {
        return Some(Figure::Events(events_in(&played)));
    }
    let performance = performance_of(alloc, &played)?;
    if stage == Stage::Load {
        return Some(Figure::Notes(performance.notes().len()));
    }
    let session = opened(rt, alloc, performance, grammar, gate)?;
    if stage == Stage::Open {
        return Some(Figure::Cost(session.cost()));
    }
    match session.score(alloc) {
        Ok(text) => Some(Figure::Score(text.len())),
        Err(_) => None,
    }
}

/// A session on the performance, whose cells one worker builds.
fn opened<R: Threads + Sync, G: Gate + Sync>(
    rt: &R,
    alloc: Global,
    performance: Performance,
    grammar: Grammar,
    gate: &G,
) -> Option<Session>
    requires readable { IsReadable grammar }
    requires few_notes { length performance.notes ≤ MOST_NOTES }
{
    let mut builds = Builds::<Benchmark>::zero();
    let mut products = Products::<Benchmark>::zero();
    let means = Means { rt, alloc, gate };
    match Session::open(&means, performance, grammar, 1, &mut builds, &mut products) {
        Ok(session) => Some(session),
        Err(_) => None,
    }
}
