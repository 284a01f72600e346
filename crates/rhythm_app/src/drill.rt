ghost use Rattle.drill_run.specs.Drill.{IsReadyForDrill};
ghost use Rattle.drill_run.specs.declared.drill_stop.DrillStop.TheVariants as drill;
ghost use Rattle.rhythm_app.specs.Asked as asked;
ghost use Rattle.rhythm_app.specs.Builds.{HasDrilledFor, HasLongScore, PartlyDrills, HasSummary, HasSummaryOf, IfLongScore};
ghost use Rattle.rhythm_app.specs.Outcome.{IsDrilling, IsPieceOf};
ghost use Rattle.rhythm_app.specs.Stages.{CountsUp, Follows, HasText, IsOfContent, said_of};
ghost use Rattle.rhythm_app.specs.declared.stop.Stop.TheVariants as stop;
ghost use Rattle.rhythm_base.specs.Readable.{IsReadable};
ghost use Rattle.rhythm_base.specs.declared.limits.TheConstants.{MOST_NOTES};
ghost use Rattle.std.specs.Prelude.{◌≡◌, ◌≤◌, Err, IfErr, IfOk, Ok, Some, length};

use crate::inputs::read_rules;
use crate::lent::{Lent, World};
use crate::session::open_session;
use crate::stop::Stop;
use drill_run::{DrillStop, made_performance, run_drill};
use edit_session::Session;
use rhythm_base::{Grammar, Performance, Workers};
use rhythm_gen::PieceNumber;
use rhythm_ports::Means;
use std::alloc::Global;

/// The performance of the piece of a number.
fn piece_of(alloc: Global, number: PieceNumber) -> Result<Performance, Stop>
    ensures piece { IfOk result (IsPieceOf number) }
    ensures memory { IfErr result (λ end. end ≡ stop.Memory) }
    ensures ready { IfOk result IsReadyForDrill }
    ensures few_notes { IfOk result (λ p. length p.notes ≤ MOST_NOTES) }
{
    match made_performance(alloc, number) {
        Ok(performance) => Ok(performance),
        Err(_error) => Err(Stop::Memory),
    }
}

/// The summary of the drill of a number over a session.
fn drill_over<W: World>(
    lent: &mut Lent<W>,
    session: Session,
    number: PieceNumber,
) -> Result<Vec<u8>, DrillStop>
    requires { IsReadyForDrill session.performance }
    ensures summary { IfOk result (HasSummary session number lent.old.built lent.new.built) }
    ensures too_long { IfLongScore result (HasLongScore session number lent.old.built lent.new.built) }
    ensures memory { result ≡ Err drill.Memory → PartlyDrills session number lent.old.built lent.new.built }
    ensures counts { CountsUp lent.old lent.new }
{
    let means = Means {
        rt: &lent.rt,
        alloc: lent.alloc,
        gate: &lent.gate,
    };
    run_drill(
        &means,
        session,
        number,
        &mut lent.builds,
        &mut lent.products,
    )
}

/// The summary of the drill of a number on a performance. Each of its cells is built once, by one of the workers, and then those for
/// the edits.
fn drilled<W: World>(
    lent: &mut Lent<W>,
    workers: Workers,
    number: PieceNumber,
    grammar: Grammar,
    performance: Performance,
) -> Result<Vec<u8>, Stop>
    requires readable { IsReadable grammar }
    requires ready { IsReadyForDrill performance }
    requires few_notes { length performance.notes ≤ MOST_NOTES }
    ensures tests { Follows (IsDrilling grammar number performance) (said_of result) }
    ensures content { IfErr result IsOfContent }
    ensures all { IfOk result (HasSummaryOf grammar number performance lent.old.built lent.new.built) }
    ensures built { IfErr result (HasDrilledFor grammar number performance lent.old.built lent.new.built) }
    ensures counts { CountsUp lent.old lent.new }
{
    match open_session(lent, workers, grammar, performance) {
        Ok(session) => match drill_over(lent, session, number) {
            Ok(text) => Ok(text),
            Err(DrillStop::ScoreTooLong { line }) => Err(Stop::ScoreTooLong { line }),
            Err(DrillStop::Memory) => Err(Stop::Memory),
        },
        Err(stop) => Err(stop),
    }
}

/// The summary of the drill of a number by a grammar file.
pub fn drill_text<W: World>(
    lent: &mut Lent<W>,
    workers: Workers,
    number: PieceNumber,
    grammar: &str,
) -> Result<Vec<u8>, Stop>
    ensures { HasText (Some (asked.drill number grammar.now)) lent.old lent.new result }
{
    match read_rules(lent, grammar) {
        Ok(rules) => match piece_of(lent.alloc, number) {
            Ok(piece) => drilled(lent, workers, number, rules, piece),
            Err(stop) => Err(stop),
        },
        Err(stop) => Err(stop),
    }
}
