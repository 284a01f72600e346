ghost use Rattle.performance_prepare.specs.Ranges.{AreInRange};
ghost use Rattle.rhythm_app.specs.Commands.{OpensOnly, OpensOnlyName, input_files};
ghost use Rattle.rhythm_app.specs.Counting.{HasPerformance, IsMidiLoading, IsOfMidi};
ghost use Rattle.rhythm_app.specs.Inputs.{shown_inputs};
ghost use Rattle.rhythm_app.specs.Stages.{EndsBy, EndsReading, FollowsFile, FollowsInputs, HasLoaded, HasRules, IsEarly, IsStopOfInputs};
ghost use Rattle.rhythm_app.specs.declared.stop.Kind.TheVariants as kind;
ghost use Rattle.rhythm_base.specs.Readable.{IsReadable};
ghost use Rattle.rhythm_base.specs.declared.limits.TheConstants.{LONGEST_SCRIPT, MOST_NOTES};
ghost use Rattle.std.specs.Prelude.{◌≡◌, ◌≤◌, Err, IfErr, IfOk, length};

use crate::files::{grammar_of, midi_of, script_of};
use crate::lent::{Lent, World};
use crate::performance::{performance_of, played_by};
use crate::request::Inputs;
use crate::stop::Stop;
use rhythm_base::{Grammar, Performance};
use rhythm_ports::Shelf;
use std::alloc::Global;

/// The grammar and the performance that the inputs say, and the bytes of the script file. The grammar file is opened only where the MIDI
/// file passed its tests, and then the script file.
#[tactic(auto, using(crate::proofs::Reading::ends_early))]
fn inputs_of<F: Shelf>(
    alloc: Global,
    inputs: Inputs,
    shelf: &mut F,
) -> Result<(Grammar, Performance, Vec<u8>), Stop>
    requires { AreInRange inputs.options }
    ensures tests { FollowsInputs (F.files shelf.old) (shown_inputs inputs.entry) result }
    ensures cause { IfErr result (IsStopOfInputs (F.files shelf.old) (shown_inputs inputs.entry)) }
    ensures readable { IfOk result (λ had. IsReadable had.0) }
    ensures few_notes { IfOk result (λ had. length had.1.notes ≤ MOST_NOTES) }
    ensures short { IfOk result (λ had. length had.2.items ≤ LONGEST_SCRIPT) }
    ensures end { IfErr result (EndsReading (F.faults shelf.old) (F.faults shelf.new)) }
    ensures early { IfErr result IsEarly }
    ensures files { F.files shelf.new ≡ F.files shelf.old }
    ensures strays { OpensOnly F.files F.strays (input_files (shown_inputs inputs.entry)) shelf.old shelf.new }
{
    let played = midi_of(alloc, shelf, inputs.midi)?;
    let grammar = grammar_of(alloc, shelf, inputs.grammar)?;
    let script = script_of(alloc, shelf, inputs.script)?;
    match played_by(alloc, &inputs.options, &played) {
        Ok(performance) => Ok((grammar, performance, script)),
        Err(stop) => Err(stop),
    }
}

/// The grammar and the performance that the inputs say, and the bytes of the script file.
pub fn read_inputs<W: World>(
    lent: &mut Lent<W>,
    inputs: Inputs,
) -> Result<(Grammar, Performance, Vec<u8>), Stop>
    requires { AreInRange inputs.options }
    ensures { HasLoaded (shown_inputs inputs.entry) lent.old lent.new result }
{
    inputs_of(lent.alloc, inputs, &mut lent.shelf)
}

/// The performance that a MIDI file says.
fn performance_in<F: Shelf>(alloc: Global, name: &str, shelf: &mut F) -> Result<Performance, Stop>
    ensures tests { FollowsFile (F.files shelf.old) name.now IsMidiLoading result }
    ensures few_notes { IfOk result (λ p. length p.notes ≤ MOST_NOTES) }
    ensures own { IfErr result IsOfMidi }
    ensures end { IfErr result (EndsBy kind.Midi (F.faults shelf.old) (F.faults shelf.new)) }
    ensures later { F.faults shelf.old ≤ F.faults shelf.new }
    ensures files { F.files shelf.new ≡ F.files shelf.old }
    ensures strays { OpensOnlyName F.files F.strays name.now shelf.old shelf.new }
{
    match midi_of(alloc, shelf, name) {
        Ok(played) => performance_of(alloc, &played),
        Err(stop) => Err(stop),
    }
}

/// The performance that the MIDI file of this name says.
pub fn read_performance<W: World>(lent: &mut Lent<W>, name: &str) -> Result<Performance, Stop>
    ensures { HasPerformance name.now lent.old lent.new result }
{
    performance_in(lent.alloc, name, &mut lent.shelf)
}

/// The grammar that the file of this name says.
pub fn read_rules<W: World>(lent: &mut Lent<W>, name: &str) -> Result<Grammar, Stop>
    ensures { HasRules name.now lent.old lent.new result }
{
    grammar_of(lent.alloc, &mut lent.shelf, name)
}
