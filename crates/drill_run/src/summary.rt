ghost use Rattle.drill_run.specs.Ends as ends;
ghost use Rattle.drill_run.specs.Ends.{OnTooLong};
ghost use Rattle.drill_run.specs.Stands.{HasScoreLength, IsSaidOf};
ghost use Rattle.kern_writer.specs.PerformanceText.{HasTooLongText};
ghost use Rattle.std.specs.Prelude.{◌≡◌, Err, IfOk, Ok};

use crate::drill_stop::DrillStop;
use crate::figures::{Figures, text_of};
use edit_session::Session;
use session_text::{KernText, ScoreFault};
use std::alloc::Global;

/// What stops a drill whose score is not written.
fn score_stop(fault: ScoreFault) -> DrillStop
    ensures { result ≡ ends.score_stop fault }
{
    match fault {
        ScoreFault::TooLong { line } => DrillStop::ScoreTooLong { line },
        ScoreFault::Memory => DrillStop::Memory,
    }
}

/// The length of the score.
fn score_length(alloc: Global, session: &Session) -> Result<u64, DrillStop>
    ensures length { IfOk result (HasScoreLength session.now) }
    ensures too_long { OnTooLong result (HasTooLongText session.now.grammar session.now.performance) }
{
    match session.score(alloc) {
        Ok(text) => Ok(text.len() as u64),
        Err(fault) => Err(score_stop(fault)),
    }
}

/// The summary of a drill, after its last edit.
pub fn summary_of(
    alloc: Global,
    session: &Session,
    accepted: u32,
    built: u64,
) -> Result<Vec<u8>, DrillStop>
    ensures summary { IfOk result (λ text. IsSaidOf session.now accepted built (Ok text.items)) }
    ensures too_long { OnTooLong result (λ line. IsSaidOf session.now accepted built (Err line)) }
{
    let performance = session.performance();
    let bars = performance.bars().len() as u64;
    let cells = performance.channels().len() as u64 * bars;
    let cost = session.cost();
    match score_length(alloc, session) {
        Ok(bytes) => {
            let figures = Figures {
                bars,
                cells,
                accepted: u64::from(accepted),
                built,
                cost,
                bytes,
            };
            match text_of(alloc, &figures) {
                Ok(text) => Ok(text),
                Err(_error) => Err(DrillStop::Memory),
            }
        }
        Err(stop) => Err(stop),
    }
}
