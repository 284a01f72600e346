ghost use Rattle.barline_fit.specs.Tries.{
  CanBeSet,
  HasBuiltToFit,
  HasReachedSome,
  IsFaultAmong,
  IsFittedAmong,
};
ghost use Rattle.edit_session.specs.Opening.{CanOpen};
ghost use Rattle.performance_prepare.specs.Ranges.{AreInRange};
ghost use Rattle.rhythm_app.specs.Asked.{AreCandidates, fit};
ghost use Rattle.rhythm_app.specs.Builds.{HasFittedAll, HasFittedOver};
ghost use Rattle.rhythm_app.specs.FittedScore.{IsScoreAt};
ghost use Rattle.rhythm_app.specs.Inputs.{shown_inputs};
ghost use Rattle.rhythm_app.specs.Outcome.{IsFitTextOf, IsFitting, IsUnscored, fit_text, fitted_at};
ghost use Rattle.rhythm_app.specs.Stages.{CountsUp, Follows, HasText, IsOfContent, ReachesBarline, said_of};
ghost use Rattle.std.specs.Prelude.{◌≡◌, Err, IfErr, IfOk, Ok, OnOk, Some};

use crate::faults::{fitted_or_stop, score_or_stop};
use crate::fit_score::fitted_score;
use crate::lent::{Lent, World};
use crate::request::Inputs;
use crate::script_file::opened_session;
use crate::stop::Stop;
use barline_fit::{Candidate, Candidates, FitFault, Fitted, best_barline};
use edit_session::Session;
use rhythm_base::{Grammar, Performance, Workers};
use rhythm_ports::Means;
use std::alloc::{AllocError, Global};

/// The line of a fitted tick, and the score after it.
fn text_with(alloc: Global, fitted: Fitted, score: &[u8]) -> Result<Vec<u8>, AllocError>
    ensures { IfOk result (λ text. text.items ≡ fit_text fitted score.now) }
{
    let mut tick = itoa::Buffer::new();
    let mut cost = itoa::Buffer::new();
    let mut text = Vec::new(alloc);
    text.extend_from_slice(b"fit ")?;
    text.extend_from_slice(tick.format(fitted.tick).as_bytes())?;
    text.extend_from_slice(b" ")?;
    text.extend_from_slice(cost.format(fitted.cost).as_bytes())?;
    text.extend_from_slice(b"\n")?;
    text.extend_from_slice(score)?;
    Ok(text)
}

/// The best tick among the candidates for a barline of a session.
fn tick_among<W: World>(
    lent: &mut Lent<W>,
    session: &mut Session,
    among: Candidates,
) -> Result<Fitted, FitFault>
    requires { AreCandidates among }
    ensures fitted { IfOk result (IsFittedAmong session.old among) }
    ensures fault { IfErr result (IsFaultAmong session.old among) }
    ensures same { session.new ≡ session.old }
    ensures builds { HasBuiltToFit session.old among result lent.old.built lent.new.built }
    ensures counts { CountsUp lent.old lent.new }
{
    let means = Means {
        rt: &lent.rt,
        alloc: lent.alloc,
        gate: &lent.gate,
    };
    best_barline(&means, session, among, &mut lent.builds, &mut lent.products)
}

/// The score of a session with a barline at a tick where it can be set.
fn score_at<W: World>(
    lent: &mut Lent<W>,
    session: &mut Session,
    candidate: Candidate,
) -> Result<Vec<u8>, Stop>
    requires { CanBeSet session.old candidate }
    ensures text { IfOk result (λ v. IsScoreAt session.old candidate (Ok v.items)) }
    ensures stop { IfErr result (IsUnscored session.old candidate) }
    ensures builds { ReachesBarline session.old candidate lent.old lent.new result }
    ensures most { HasReachedSome session.old candidate lent.old.built lent.new.built }
    ensures counts { CountsUp lent.old lent.new }
{
    let means = Means {
        rt: &lent.rt,
        alloc: lent.alloc,
        gate: &lent.gate,
    };
    score_or_stop(fitted_score(
        &means,
        session,
        candidate,
        &mut lent.builds,
        &mut lent.products,
    ))
}

/// The text of a fit, where a tick is fitted.
fn fitted_text<W: World>(
    lent: &mut Lent<W>,
    session: &mut Session,
    bar: u32,
    fitted: Fitted,
) -> Result<Vec<u8>, Stop>
    requires { CanBeSet session.old (fitted_at bar fitted) }
    ensures text { IfOk result (IsFitTextOf session.old bar fitted) }
    ensures stop { IfErr result (IsUnscored session.old (fitted_at bar fitted)) }
    ensures builds { ReachesBarline session.old (fitted_at bar fitted) lent.old lent.new result }
    ensures most { HasReachedSome session.old (fitted_at bar fitted) lent.old.built lent.new.built }
    ensures counts { CountsUp lent.old lent.new }
{
    let candidate = Candidate {
        bar,
        tick: fitted.tick,
    };
    match score_at(lent, session, candidate) {
        Ok(score) => match text_with(lent.alloc, fitted, score.as_slice()) {
            Ok(text) => Ok(text),
            Err(_error) => Err(Stop::Memory),
        },
        Err(stop) => Err(stop),
    }
}

/// The text of the fit of a barline of a session.
fn fit_over<W: World>(
    lent: &mut Lent<W>,
    session: &mut Session,
    among: Candidates,
) -> Result<Vec<u8>, Stop>
    requires tried { AreCandidates among }
    requires can { CanOpen session.old.grammar session.old.performance }
    ensures tests { Follows (IsFitting among session.old.grammar session.old.performance) (said_of result) }
    ensures content { IfErr result IsOfContent }
    ensures all { OnOk result (HasFittedAll among session.old lent.old.built lent.new.built) }
    ensures built { IfErr result (HasFittedOver among session.old lent.old.built lent.new.built) }
    ensures counts { CountsUp lent.old lent.new }
{
    let fitted = fitted_or_stop(tick_among(lent, session, among))?;
    fitted_text(lent, session, among.bar, fitted)
}

/// The text of the fit of a barline of the performance of a MIDI file, by a grammar file.
pub fn fit_text_of<W: World>(
    lent: &mut Lent<W>,
    workers: Workers,
    inputs: Inputs,
    among: Candidates,
) -> Result<Vec<u8>, Stop>
    requires options { AreInRange inputs.options }
    requires tried { AreCandidates among }
    ensures { HasText (Some (fit (shown_inputs inputs.entry) among)) lent.old lent.new result }
{
    match opened_session(lent, workers, inputs) {
        Ok(mut session) => fit_over(lent, &mut session, among),
        Err(stop) => Err(stop),
    }
}
