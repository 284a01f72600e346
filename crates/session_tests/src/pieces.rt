ghost use Rattle.rhythm_base.specs.Readable.{IsReadable};
ghost use Rattle.rhythm_base.specs.declared.limits.TheConstants.{MOST_NOTES};
ghost use Rattle.smf_reader.specs.Ranges.{IsPlayedFile};
ghost use Rattle.std.specs.Prelude.{◌≤◌, IfSome, length};

use carry_matrix::Steps as Products;
use edit_session::Session;
use grammar_file::read_grammar;
use least_cost::Steps as Builds;
use performance_load::load;
use rhythm_base::{Grammar, Performance, Tag};
use rhythm_ports::{Means, OpenGate};
use sample_grammars::USUAL;
use smf_reader::{Smf, read_smf};
use std::alloc::Global;
use std::thread::Threads;

/// What the counters of these tests count for.
#[derive(Clone, Copy)]
pub struct InTests;

impl Tag for InTests {}

/// Four quarter notes from C to F, with 480 ticks to a quarter note.
pub const FOUR_QUARTERS: &[u8] = b"\
    MThd\0\0\0\x06\0\0\0\x01\x01\xe0\
    MTrk\0\0\0(\0\x90<@\x83`\x80<\0\0\x90>@\x83`\x80>\0\0\x90@@\x83`\x80@\0\0\x90A@\
    \x83`\x80A\0\0\xff/\0\
";

/// A note over a whole bar.
pub const WHOLE_NOTE: &[u8] = b"\
    MThd\0\0\0\x06\0\0\0\x01\x01\xe0\
    MTrk\0\0\0\x0d\0\x90<@\x8f\0\x80<\0\0\xff/\0\
";

/// Three notes that begin 20 ticks apart and end together, after a half note.
pub const THREE_NEAR: &[u8] = b"\
    MThd\0\0\0\x06\0\0\0\x01\x01\xe0\
    MTrk\0\0\0\x1d\0\x90<@\x14\x90>@\x14\x90@@\x87\x18\x80<\0\0\x80>\0\0\x80@\0\0\xff/\0\
";

/// A note of three eighths of a bar.
pub const THREE_EIGHTHS: &[u8] = b"\
    MThd\0\0\0\x06\0\0\0\x01\x01\xe0\
    MTrk\0\0\0\x0d\0\x90<@\x85P\x80<\0\0\xff/\0\
";

/// Two notes: the second begins 20 ticks before the barline between them.
pub const EARLY_NOTE: &[u8] = b"\
    MThd\0\0\0\x06\0\0\0\x01\x01\xe0\
    MTrk\0\0\0\x16\0\x90<@\x8el\x80<\0\0\x90>@\x8f\x14\x80>\0\0\xff/\0\
";

/// What the MIDI file says.
fn played_in(alloc: Global, bytes: &[u8]) -> Option<Smf>
    ensures { IfSome result IsPlayedFile }
{
    match read_smf(alloc, bytes) {
        Ok(played) => Some(played),
        Err(_) => None,
    }
}

/// The performance of the file.
fn performance_of(alloc: Global, played: &Smf) -> Option<Performance>
    requires { IsPlayedFile played.now }
    ensures { IfSome result (λ p. length p.notes ≤ MOST_NOTES) }
{
    match load(alloc, played) {
        Ok(performance) => Some(performance),
        Err(_) => None,
    }
}

/// The grammar.
pub fn grammar(alloc: Global) -> Option<Grammar>
    ensures { IfSome result IsReadable }
{
    match read_grammar(alloc, USUAL) {
        Ok(grammar) => Some(grammar),
        Err(_) => None,
    }
}

/// A session on a piece, with two workers.
pub fn opened<R: Threads + Sync>(rt: &R, alloc: Global, bytes: &[u8]) -> Option<Session> {
    let played = played_in(alloc, bytes)?;
    let performance = performance_of(alloc, &played)?;
    let grammar = grammar(alloc)?;
    let mut builds = Builds::<InTests>::zero();
    let mut products = Products::<InTests>::zero();
    let means = Means {
        rt,
        alloc,
        gate: &OpenGate,
    };
    match Session::open(&means, performance, grammar, 2, &mut builds, &mut products) {
        Ok(session) => Some(session),
        Err(_) => None,
    }
}
