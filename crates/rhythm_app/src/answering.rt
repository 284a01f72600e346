ghost use Rattle.performance_prepare.specs.Ranges.{AreInRange};
ghost use Rattle.rhythm_app.specs.Asked.{answer};
ghost use Rattle.rhythm_app.specs.Ends.{HasBrokenOff, HasTalkedOn, IsErrUntouched, IsPerformed, IsShelfUntouched, IsUntouched, desk_of};
ghost use Rattle.rhythm_app.specs.Inputs.{shown_inputs};
ghost use Rattle.rhythm_app.specs.Stages.{CountersRise, HasSession};
ghost use Rattle.rhythm_app.specs.Stops.{script_stop};
ghost use Rattle.rhythm_ports.specs.Causes.{Rose};
ghost use Rattle.script_run.specs.Desk.{shown};
ghost use Rattle.script_run.specs.Editing.{Editing};
ghost use Rattle.script_run.specs.declared.script_stop.ScriptStop.TheVariants as stops;
ghost use Rattle.std.specs.Prelude.{◌≡◌, Err, IfErr, IfOk, OnOk, Some};

use crate::lent::{Lent, World};
use crate::request::{Inputs, Talk};
use crate::script_file::opened_session;
use crate::stop::{Kind, Stop};
use edit_session::Session;
use rhythm_base::Workers;
use rhythm_ports::Means;
use script_run::{Desk, ScriptStop, run_script};
use session_history::History;
use std::alloc::Global;

/// Why the answering of a script ends, as a stop of the run.
fn script_stop(stop: ScriptStop) -> Stop
    ensures { result ≡ script_stop stop }
{
    match stop {
        ScriptStop::Read => Stop::Read(Kind::Script),
        ScriptStop::TooLong { read } => Stop::FileTooLong {
            kind: Kind::Script,
            read,
        },
        ScriptStop::LineTooLong { read } => Stop::LineTooLong { read },
        ScriptStop::Write => Stop::Write,
        ScriptStop::Memory => Stop::Memory,
    }
}

/// The session that answers a script, before any line of it is read.
fn session_of<W: World>(
    lent: &mut Lent<W>,
    workers: Workers,
    talk: Talk,
    inputs: Inputs,
) -> Result<Session, Stop>
    requires options { AreInRange inputs.options }
    ensures { HasSession talk (shown_inputs inputs.entry) lent.old lent.new result }
{
    match opened_session(lent, workers, inputs) {
        Ok(session) => Ok(session),
        Err(stop) => Err(stop),
    }
}

/// What answers a script over a session. The places for the steps of a studio are taken here.
fn desk_of(alloc: Global, talk: Talk, session: Session) -> Result<Desk, ScriptStop>
    ensures desk { IfOk result (λ desk. shown desk ≡ desk_of talk session.grammar session.performance) }
    ensures memory { IfErr result (λ end. end ≡ stops.Memory) }
{
    match talk {
        Talk::Editing => Ok(Desk::Editor(session)),
        Talk::Studio => match History::new(alloc, session) {
            Ok(history) => Ok(Desk::Studio(history)),
            Err(_session) => Err(ScriptStop::Memory),
        },
    }
}

/// Answers the lines of a script over a session.
fn talk_over<W: World>(lent: &mut Lent<W>, talk: Talk, session: Session) -> Result<(), ScriptStop>
    ensures done { OnOk result (HasTalkedOn talk session lent.old lent.new) }
    ensures broken { IfErr result (HasBrokenOff talk session lent.old lent.new) }
    ensures read { result ≡ Err stops.Read → Rose lent.old.script_faults lent.new.script_faults }
    ensures write { result ≡ Err stops.Write → Rose lent.old.out_faults lent.new.out_faults }
    ensures memory { result ≡ Err stops.Memory → IsUntouched lent.old lent.new }
    ensures counters { CountersRise lent.old lent.new }
    ensures files { IsShelfUntouched lent.old lent.new }
    ensures err { IsErrUntouched lent.old lent.new }
{
    let means = Means {
        rt: &lent.rt,
        alloc: lent.alloc,
        gate: &lent.gate,
    };
    match desk_of(lent.alloc, talk, session) {
        Ok(desk) => run_script(
            &means,
            desk,
            &mut lent.script,
            &mut lent.out,
            &mut lent.builds,
            &mut lent.products,
        ),
        Err(stop) => Err(stop),
    }
}

/// Answers a script over the session on a MIDI file and a grammar.
pub fn answer<W: World>(
    lent: &mut Lent<W>,
    workers: Workers,
    talk: Talk,
    inputs: Inputs,
) -> Result<(), Stop>
    requires options { AreInRange inputs.options }
    ensures { IsPerformed (Some (answer talk (shown_inputs inputs.entry))) lent.old lent.new result }
{
    match session_of(lent, workers, talk, inputs) {
        Ok(session) => match talk_over(lent, talk, session) {
            Ok(()) => Ok(()),
            Err(stop) => Err(script_stop(stop)),
        },
        Err(stop) => Err(stop),
    }
}
