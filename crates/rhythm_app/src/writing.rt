ghost use Rattle.derivation.specs.PerformanceScore.{IsScoreOf};
ghost use Rattle.derivation.specs.Score.{IsScore};
ghost use Rattle.edit_session.specs.Opening.{CanOpen};
ghost use Rattle.performance_prepare.specs.Ranges.{AreInRange};
ghost use Rattle.rhythm_app.specs.Asked.{write};
ghost use Rattle.rhythm_app.specs.Inputs.{shown_inputs};
ghost use Rattle.kern_writer.specs.PerformanceText.{IsKernTextOf};
ghost use Rattle.rhythm_app.specs.Outcome.{AreEventsOf};
ghost use Rattle.rhythm_app.specs.Stages.{FollowsForm, HasNoText, HasShortText, HasText, IsOfWriting};
ghost use Rattle.rhythm_app.specs.declared.request.Form.TheVariants as form;
ghost use Rattle.rhythm_base.specs.Performance.{IsWellFormed};
ghost use Rattle.rhythm_base.specs.Readable.{IsReadable};
ghost use Rattle.rhythm_base.specs.declared.limits.TheConstants.{MOST_BARS, MOST_VOICES};
ghost use Rattle.std.specs.Prelude.{◌≡◌, ◌≤◌, IfErr, IfOk, OnOk, Some, length};

use crate::faults::{rendering_or_stop, score_or_stop};
use crate::lent::{Lent, World};
use crate::request::{Form, Inputs};
use crate::script_file::opened_session;
use crate::stop::Stop;
use derivation::Score;
use edit_session::Session;
use kern_reader::KernEvent;
use kern_writer::write_kern;
use lily_writer::write_lily;
use musicxml_writer::write_musicxml;
use page_writer::write_page;
use rhythm_base::{Grammar, Performance, Workers};
use session_text::KernText;
use smf_writer::render;
use std::alloc::Global;
use voice_events::events_of;

/// The **kern text of the score of a session.
fn kern_text_of(alloc: Global, session: &Session) -> Result<Vec<u8>, Stop>
    requires { CanOpen session.now.grammar session.now.performance }
    ensures text { IfOk result (λ v. IsKernTextOf session.now.grammar session.now.performance v.items) }
    ensures stop { IfErr result (HasNoText session.now) }
{
    score_or_stop(session.score(alloc))
}

/// The score of a session, where its **kern text is within its limit.
fn short_score(alloc: Global, session: &Session) -> Result<Score, Stop>
    requires { CanOpen session.now.grammar session.now.performance }
    ensures writable { IfOk result IsScore }
    ensures few_bars { IfOk result (λ score. length score.bars ≤ MOST_BARS) }
    ensures score { IfOk result (λ score. IsScoreOf session.now.grammar session.now.performance score) }
    ensures short { OnOk result (HasShortText session.now) }
    ensures stop { IfErr result (HasNoText session.now) }
{
    let Ok(score) = session.whole_score(alloc) else {
        return Err(Stop::Memory);
    };
    let _text = score_or_stop(write_kern(alloc, &score))?;
    Ok(score)
}

/// The events of the score of a session.
fn score_events(alloc: Global, session: &Session) -> Result<Vec<KernEvent>, Stop>
    requires can { CanOpen session.now.grammar session.now.performance }
    requires readable { IsReadable session.now.grammar }
    requires formed { IsWellFormed session.now.performance }
    ensures events { IfOk result (λ v. AreEventsOf session.now.grammar session.now.performance v.items) }
    ensures stop { IfErr result (HasNoText session.now) }
{
    let score = short_score(alloc, session)?;
    match events_of(alloc, &score) {
        Ok(events) => Ok(events),
        Err(_error) => Err(Stop::Memory),
    }
}

/// How many voices a performance has.
fn voice_count(performance: &Performance) -> u8
    requires { length performance.now.channels ≤ MOST_VOICES }
    ensures { result ≡ length performance.now.channels }
{
    performance.channels().len() as u8
}

/// The LilyPond text of the events of a session.
fn lily_of(alloc: Global, session: &Session, resolution: u16) -> Result<Vec<u8>, Stop>
    requires can { CanOpen session.now.grammar session.now.performance }
    requires readable { IsReadable session.now.grammar }
    requires resolution { resolution ≡ session.now.grammar.resolution }
    ensures tests { FollowsForm form.LilyPond session.now result }
    ensures end { IfErr result IsOfWriting }
{
    let performance = session.performance();
    let events = score_events(alloc, session)?;
    let voices = voice_count(performance);
    match session.score_bars(alloc) {
        Ok(bars) => match write_lily(
            alloc,
            events.as_slice(),
            bars.as_slice(),
            voices,
            resolution,
        ) {
            Ok(text) => Ok(text),
            Err(_error) => Err(Stop::Memory),
        },
        Err(_error) => Err(Stop::Memory),
    }
}

/// The page of the score of a session.
fn page_of(alloc: Global, session: &Session) -> Result<Vec<u8>, Stop>
    requires can { CanOpen session.now.grammar session.now.performance }
    requires readable { IsReadable session.now.grammar }
    ensures tests { FollowsForm form.Page session.now result }
    ensures end { IfErr result IsOfWriting }
{
    let performance = session.performance();
    let score = short_score(alloc, session)?;
    match write_page(alloc, &score, performance.channels()) {
        Ok(text) => Ok(text),
        Err(_error) => Err(Stop::Memory),
    }
}

/// The MusicXML text of the score of a session.
fn musicxml_of(alloc: Global, session: &Session) -> Result<Vec<u8>, Stop>
    requires can { CanOpen session.now.grammar session.now.performance }
    requires readable { IsReadable session.now.grammar }
    ensures tests { FollowsForm form.MusicXml session.now result }
    ensures end { IfErr result IsOfWriting }
{
    let performance = session.performance();
    let score = short_score(alloc, session)?;
    match write_musicxml(alloc, &score, performance.channels()) {
        Ok(text) => Ok(text),
        Err(_error) => Err(Stop::Memory),
    }
}

/// The MIDI file of the score of a session.
fn rendering_of(alloc: Global, session: &Session, resolution: u16) -> Result<Vec<u8>, Stop>
    requires can { CanOpen session.now.grammar session.now.performance }
    requires readable { IsReadable session.now.grammar }
    requires resolution { resolution ≡ session.now.grammar.resolution }
    ensures tests { FollowsForm form.Rendered session.now result }
    ensures end { IfErr result IsOfWriting }
{
    let performance = session.performance();
    let events = score_events(alloc, session)?;
    let channels = performance.channels();
    match session.score_bars(alloc) {
        Ok(bars) => rendering_or_stop(render(
            alloc,
            events.as_slice(),
            bars.as_slice(),
            channels,
            resolution,
        )),
        Err(_error) => Err(Stop::Memory),
    }
}

/// What is written of a session in this form. The resolution is that of its grammar.
fn text_of(alloc: Global, form: Form, session: &Session, resolution: u16) -> Result<Vec<u8>, Stop>
    requires can { CanOpen session.now.grammar session.now.performance }
    requires readable { IsReadable session.now.grammar }
    requires resolution { resolution ≡ session.now.grammar.resolution }
    ensures tests { FollowsForm form session.now result }
    ensures end { IfErr result IsOfWriting }
{
    match form {
        Form::Score => kern_text_of(alloc, session),
        Form::LilyPond => lily_of(alloc, session, resolution),
        Form::Page => page_of(alloc, session),
        Form::MusicXml => musicxml_of(alloc, session),
        Form::Rendered => rendering_of(alloc, session, resolution),
    }
}

/// What is written of a session in this form, which builds no table.
fn text_over<W: World>(lent: &mut Lent<W>, form: Form, session: &Session) -> Result<Vec<u8>, Stop>
    requires { CanOpen session.now.grammar session.now.performance }
    ensures tests { FollowsForm form session.now result }
    ensures end { IfErr result IsOfWriting }
    ensures same { lent.new ≡ lent.old }
{
    let resolution = session.grammar().resolution;
    text_of(lent.alloc, form, session, resolution)
}

/// The text of a command that writes a session on a MIDI file and a grammar.
pub fn session_text<W: World>(
    lent: &mut Lent<W>,
    workers: Workers,
    form: Form,
    inputs: Inputs,
) -> Result<Vec<u8>, Stop>
    requires options { AreInRange inputs.options }
    ensures { HasText (Some (write form (shown_inputs inputs.entry))) lent.old lent.new result }
{
    match opened_session(lent, workers, inputs) {
        Ok(session) => text_over(lent, form, &session),
        Err(stop) => Err(stop),
    }
}
