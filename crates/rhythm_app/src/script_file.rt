ghost use Rattle.edit_laws.specs.EditOutcomes.{made};
ghost use Rattle.edit_script.specs.ScriptLines.{script_lines};
ghost use Rattle.edit_session.specs.Effects.{HasBuiltInVain, IsRejected};
ghost use Rattle.performance_prepare.specs.Ranges.{AreInRange};
ghost use Rattle.rhythm_app.specs.Inputs.{shown_inputs};
ghost use Rattle.rhythm_app.specs.Outcome.{line_stop, loaded};
ghost use Rattle.rhythm_app.specs.Scripted.{SaysEdit};
ghost use Rattle.rhythm_app.specs.Stages.{BreaksLineOff, CountsUp, HasOpened, HasScripted, MakesEdit, MakesEdits, MakesLine, RefusesLine};
ghost use Rattle.rhythm_base.specs.EditRanges.{IsEditInRange};
ghost use Rattle.rhythm_base.specs.Readable.{IsReadable};
ghost use Rattle.rhythm_base.specs.declared.edit.Edit.{Edit};
ghost use Rattle.rhythm_base.specs.declared.edit_fault.EditFault.TheVariants as faults;
ghost use Rattle.rhythm_base.specs.declared.limits.TheConstants.{LONGEST_SCRIPT, MOST_NOTES};
ghost use Rattle.std.specs.Prelude.{◌≡◌, ◌≤◌, ◌<◌, ◌⊎◌, ◌∷◌, Err, IfErr, IfOk, None, OnOk, Some, length};

use crate::inputs::read_inputs;
use crate::lent::{Lent, World};
use crate::request::Inputs;
use crate::session::open_session;
use crate::stop::Stop;
use edit_script::{Command, LineFault, read_line};
use edit_session::Session;
use rhythm_base::{Edit, EditFault, Grammar, LONGEST_SCRIPT_LINE, Performance, Workers};
use rhythm_ports::Means;
use std::alloc::Global;

/// The edit that a line says. Where it says none, there is no fault; and there may be want of memory.
fn edit_of(alloc: Global, line: &[u8]) -> Result<Edit, Option<EditFault>>
    ensures edit { IfOk result (SaysEdit line.now) }
    ensures range { IfOk result IsEditInRange }
    ensures none { result ≡ Err None → (edit : Edit) → SaysEdit line.now edit → ⊥ }
    ensures memory { IfErr result (λ fault. (fault ≡ None) ⊎ (fault ≡ Some faults.Memory)) }
{
    if line.len() as u64 > LONGEST_SCRIPT_LINE {
        return Err(None);
    }
    match read_line(alloc, line) {
        Ok(Command::Change(edit)) => Ok(edit),
        Ok(Command::Score | Command::Alternatives { .. } | Command::Quit) => Err(None),
        Err(LineFault::BadLine) => Err(None),
        Err(LineFault::Memory) => Err(Some(EditFault::Memory)),
    }
}

/// Makes an edit of a session, or says why it is refused.
fn make_edit<W: World>(
    lent: &mut Lent<W>,
    session: &mut Session,
    edit: &Edit,
) -> Result<(), EditFault>
    requires { IsEditInRange edit.now }
    ensures made { OnOk result (MakesEdit edit.now session.old session.new lent.old lent.new) }
    ensures rejected { IfErr result (IsRejected session.old edit.now session.new) }
    ensures built { IfErr result (HasBuiltInVain session.old edit.now lent.old.built lent.new.built) }
    ensures grammar { session.new.grammar ≡ session.old.grammar }
    ensures counts { CountsUp lent.old lent.new }
{
    let means = Means {
        rt: &lent.rt,
        alloc: lent.alloc,
        gate: &lent.gate,
    };
    match session.apply(&means, edit, &mut lent.builds, &mut lent.products) {
        Ok(_applied) => Ok(()),
        Err(fault) => Err(fault),
    }
}

/// Makes the edit that a line says. Where it says none there is no fault.
fn make_line<W: World>(
    lent: &mut Lent<W>,
    session: &mut Session,
    line: &[u8],
) -> Result<(), Option<EditFault>>
    ensures made { OnOk result (MakesLine line.now session.old session.new lent.old lent.new) }
    ensures refused { IfErr result (RefusesLine line.now session.old lent.old lent.new) }
    ensures broken { IfErr result (BreaksLineOff line.now session.old lent.old lent.new) }
    ensures grammar { session.new.grammar ≡ session.old.grammar }
    ensures counts { CountsUp lent.old lent.new }
{
    match edit_of(lent.alloc, line) {
        Ok(edit) => match make_edit(lent, session, &edit) {
            Ok(()) => Ok(()),
            Err(fault) => Err(Some(fault)),
        },
        Err(fault) => Err(fault),
    }
}

/// The first line of a script, and the script after its newline.
fn first_line(script: &[u8]) -> (&[u8], &[u8])
    requires { 0 < length script.now }
    ensures line { script_lines script.now ≡ result.0.now ∷ script_lines result.1.now }
    ensures shorter { length result.1.now < length script.now }
{
    match script.iter().position(|byte| *byte == b'\n') {
        Some(end) => (&script[..end], &script[end + 1..]),
        None => (script, &[]),
    }
}

/// Why the edits of a script end at the line of this number, as a stop.
fn line_stop(line: u32, fault: Option<EditFault>) -> Stop
    ensures { result ≡ line_stop line fault }
{
    match fault {
        Some(EditFault::Memory) => Stop::Memory,
        fault => Stop::ScriptLine { line, fault },
    }
}

/// Makes the edits of a script, line by line, up to the first line that is refused.
fn make_edits<W: World>(
    lent: &mut Lent<W>,
    session: &mut Session,
    script: &[u8],
) -> Result<(), Stop>
    requires { length script.now ≤ LONGEST_SCRIPT }
    ensures edited { MakesEdits script.now session.old session.new lent.old lent.new result }
    ensures grammar { session.new.grammar ≡ session.old.grammar }
    ensures counts { CountsUp lent.old lent.new }
{
    let mut number = 1;
    let mut rest = script;
    'lines: while !rest.is_empty() {
        let (line, more) = first_line(rest);
        if let Err(fault) = make_line(lent, session, line) {
            return Err(line_stop(number, fault));
        }
        number += 1;
        rest = more;
    }
    Ok(())
}

/// A session on a performance, after the edits of a script. Each of its cells is built once, by one of the workers, and then those that
/// each edit reaches.
fn scripted_session<W: World>(
    lent: &mut Lent<W>,
    workers: Workers,
    grammar: Grammar,
    performance: Performance,
    script: &[u8],
) -> Result<Session, Stop>
    requires readable { IsReadable grammar }
    requires few_notes { length performance.notes ≤ MOST_NOTES }
    requires short { length script.now ≤ LONGEST_SCRIPT }
    ensures { HasScripted (loaded grammar performance script.now) lent.old lent.new result }
{
    match open_session(lent, workers, grammar, performance) {
        Ok(mut session) => match make_edits(lent, &mut session, script) {
            Ok(()) => Ok(session),
            Err(stop) => Err(stop),
        },
        Err(stop) => Err(stop),
    }
}

/// A session on what the inputs say, after the edits of their script file.
pub fn opened_session<W: World>(
    lent: &mut Lent<W>,
    workers: Workers,
    inputs: Inputs,
) -> Result<Session, Stop>
    requires options { AreInRange inputs.options }
    ensures { HasOpened (shown_inputs inputs.entry) lent.old lent.new result }
{
    match read_inputs(lent, inputs) {
        Ok((grammar, performance, script)) => scripted_session(
            lent,
            workers,
            grammar,
            performance,
            script.as_slice(),
        ),
        Err(stop) => Err(stop),
    }
}
