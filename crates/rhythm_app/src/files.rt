ghost use Rattle.rhythm_app.specs.Counting.{IsOfMidi};
ghost use Rattle.rhythm_app.specs.Commands.{OpensOnly, OpensOnlyName, script_file};
ghost use Rattle.rhythm_app.specs.Inputs.{shown_name};
ghost use Rattle.rhythm_app.specs.Outcome.{IsRead, IsScoreRead, IsSized, IsUnderstood, limit_of, stopped};
ghost use Rattle.rhythm_app.specs.Stages.{EndsBy, Follows, FollowsFile, FollowsScript, IsEarly, IsOfContent, IsUnread, items_of};
ghost use Rattle.rhythm_app.specs.declared.stop.Kind.TheVariants as kind;
ghost use Rattle.rhythm_app.specs.declared.stop.Stop.TheVariants as stop;
ghost use Rattle.rhythm_base.specs.Readable.{IsReadable};
ghost use Rattle.rhythm_base.specs.declared.limits.TheConstants.{LONGEST_SCRIPT};
ghost use Rattle.smf_reader.specs.Ranges.{IsPlayedFile};
ghost use Rattle.smf_reader.specs.SmfFile.{smf};
ghost use Rattle.std.specs.Prelude.{◌≡◌, ◌≢◌, ◌≤◌, IfErr, IfOk, None, length};

use crate::stop::{Kind, Stop};
use grammar_file::{GrammarFault, GrammarWhat, read_grammar};
use kern_reader::{KernFault, KernScore, KernWhat, read_kern};
use rhythm_base::{Grammar, LONGEST_GRAMMAR, LONGEST_MIDI, LONGEST_SCORE, LONGEST_SCRIPT};
use rhythm_ports::{ReadEnd, Shelf, read_shelf};
use smf_reader::{Smf, SmfFault, read_smf};
use std::alloc::Global;

/// The most bytes that a file of this kind may have.
fn limit(kind: Kind) -> u64
    ensures { result ≡ limit_of kind }
{
    match kind {
        Kind::Midi => LONGEST_MIDI,
        Kind::Grammar => LONGEST_GRAMMAR,
        Kind::Kern => LONGEST_SCORE,
        Kind::ScriptFile | Kind::Script => LONGEST_SCRIPT,
    }
}

/// The bytes of a file, within the limit of its kind. It is closed when it is read.
fn read_file<F: Shelf>(
    alloc: Global,
    shelf: &mut F,
    kind: Kind,
    name: &str,
) -> Result<Vec<u8>, Stop>
    ensures tests { FollowsFile (F.files shelf.old) name.now (IsSized kind) (items_of result) }
    ensures within { IfOk result (λ bytes. length bytes.items ≤ limit_of kind) }
    ensures unread { IfErr result (IsUnread kind) }
    ensures end { IfErr result (EndsBy kind (F.faults shelf.old) (F.faults shelf.new)) }
    ensures later { F.faults shelf.old ≤ F.faults shelf.new }
    ensures files { F.files shelf.new ≡ F.files shelf.old }
    ensures strays { OpensOnlyName F.files F.strays name.now shelf.old shelf.new }
{
    if shelf.open(name).is_err() {
        return Err(Stop::Read(kind));
    }
    let read = read_shelf(alloc, shelf, limit(kind));
    shelf.close();
    match read {
        Ok(bytes) => Ok(bytes),
        Err(ReadEnd::Fault) => Err(Stop::Read(kind)),
        Err(ReadEnd::TooLong { read }) => Err(Stop::FileTooLong { kind, read }),
        Err(ReadEnd::Memory) => Err(Stop::Memory),
    }
}

/// What the bytes of the MIDI file say.
fn smf_in(alloc: Global, bytes: &[u8]) -> Result<Smf, Stop>
    ensures tests { Follows (λ r. stopped stop.Smf (smf bytes.now) ≡ r) result }
    ensures played { IfOk result IsPlayedFile }
    ensures own { IfErr result IsOfMidi }
    ensures early { IfErr result IsEarly }
    ensures content { IfErr result IsOfContent }
{
    match read_smf(alloc, bytes) {
        Ok(played) => Ok(played),
        Err(SmfFault::Memory) => Err(Stop::Memory),
        Err(fault) => Err(Stop::Smf(fault)),
    }
}

/// What the MIDI file says.
#[tactic(auto, unfolding(crate::specs::Outcome::midi_tests))]
pub fn midi_of<F: Shelf>(alloc: Global, shelf: &mut F, name: &str) -> Result<Smf, Stop>
    ensures tests { FollowsFile (F.files shelf.old) name.now IsRead result }
    ensures played { IfOk result IsPlayedFile }
    ensures own { IfErr result IsOfMidi }
    ensures end { IfErr result (EndsBy kind.Midi (F.faults shelf.old) (F.faults shelf.new)) }
    ensures later { F.faults shelf.old ≤ F.faults shelf.new }
    ensures files { F.files shelf.new ≡ F.files shelf.old }
    ensures strays { OpensOnlyName F.files F.strays name.now shelf.old shelf.new }
{
    let bytes = read_file(alloc, shelf, Kind::Midi, name)?;
    smf_in(alloc, bytes.as_slice())
}

/// The grammar of the grammar file.
#[tactic(auto, unfolding(crate::specs::Outcome::grammar_tests))]
pub fn grammar_of<F: Shelf>(alloc: Global, shelf: &mut F, name: &str) -> Result<Grammar, Stop>
    ensures tests { FollowsFile (F.files shelf.old) name.now IsUnderstood result }
    ensures readable { IfOk result IsReadable }
    ensures end { IfErr result (EndsBy kind.Grammar (F.faults shelf.old) (F.faults shelf.new)) }
    ensures later { F.faults shelf.old ≤ F.faults shelf.new }
    ensures files { F.files shelf.new ≡ F.files shelf.old }
    ensures strays { OpensOnlyName F.files F.strays name.now shelf.old shelf.new }
{
    let bytes = read_file(alloc, shelf, Kind::Grammar, name)?;
    match read_grammar(alloc, bytes.as_slice()) {
        Ok(grammar) => Ok(grammar),
        Err(
            GrammarFault {
                what: GrammarWhat::Memory,
                ..
            },
        ) => Err(Stop::Memory),
        Err(fault) => Err(Stop::Grammar(fault)),
    }
}

/// The score of the **kern file.
#[tactic(auto, unfolding(crate::specs::Outcome::kern_tests))]
pub fn kern_of<F: Shelf>(alloc: Global, shelf: &mut F, name: &str) -> Result<KernScore, Stop>
    ensures tests { FollowsFile (F.files shelf.old) name.now IsScoreRead result }
    ensures end { IfErr result (EndsBy kind.Kern (F.faults shelf.old) (F.faults shelf.new)) }
    ensures later { F.faults shelf.old ≤ F.faults shelf.new }
    ensures files { F.files shelf.new ≡ F.files shelf.old }
    ensures strays { OpensOnlyName F.files F.strays name.now shelf.old shelf.new }
{
    let bytes = read_file(alloc, shelf, Kind::Kern, name)?;
    match read_kern(alloc, bytes.as_slice()) {
        Ok(score) => Ok(score),
        Err(
            KernFault {
                what: KernWhat::Memory,
                ..
            },
        ) => Err(Stop::Memory),
        Err(fault) => Err(Stop::Kern(fault)),
    }
}

/// The bytes of the script file, none where there is none.
pub fn script_of<F: Shelf>(
    alloc: Global,
    shelf: &mut F,
    name: Option<&str>,
) -> Result<Vec<u8>, Stop>
    ensures tests { FollowsScript (F.files shelf.old) (shown_name name.entry) (items_of result) }
    ensures within { IfOk result (λ bytes. length bytes.items ≤ LONGEST_SCRIPT) }
    ensures named { IfErr result (λ _. shown_name name.entry ≢ None) }
    ensures end { IfErr result (EndsBy kind.ScriptFile (F.faults shelf.old) (F.faults shelf.new)) }
    ensures later { F.faults shelf.old ≤ F.faults shelf.new }
    ensures files { F.files shelf.new ≡ F.files shelf.old }
    ensures strays { OpensOnly F.files F.strays (script_file (shown_name name.entry)) shelf.old shelf.new }
{
    match name {
        None => Ok(Vec::new(alloc)),
        Some(name) => read_file(alloc, shelf, Kind::ScriptFile, name),
    }
}
