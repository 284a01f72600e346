ghost use Rattle.edit_script.specs.declared.reply.Reply.TheVariants as replies;
ghost use Rattle.edit_session.specs.Asking.{CanBePinned};
ghost use Rattle.rhythm_base.specs.EditRanges.{IsEditInRange};
ghost use Rattle.edit_laws.specs.Edits.{edited};
ghost use Rattle.edit_script.specs.declared.command.Command.TheVariants as command;
ghost use Rattle.script_run.specs.Answers.{HasCell, Quits};
ghost use Rattle.script_run.specs.Faults.{refusal_of_asking, refusal_of_score};
ghost use Rattle.script_run.specs.LineReplies.{
  Built,
  IsBuiltByEdit,
  IsEditReply,
  Refuses,
  MayReply,
  RepliesToLine,
  ShowsAll,
  no_memory,
};
ghost use Rattle.std.specs.Prelude.{◌≡◌, ◌≢◌, ◌≤◌, ◌↔◌, All, IfOk, IsOk, MatchResult};

use crate::shown::all_shown;
use carry_matrix::Steps as Products;
use edit_script::{Command, LineFault, Refusal, Reply, read_line};
use edit_session::{Alternative, Applied, AskFault, Session};
use least_cost::Steps as Builds;
use rhythm_base::{Edit, EditFault, Tag};
use rhythm_ports::{Gate, Means};
use session_text::{KernText, ScoreFault};
use std::alloc::Global;
use std::thread::Threads;

/// The reply to an edit, by what became of it.
pub fn edit_reply(outcome: Result<Applied, EditFault>) -> Reply
    ensures { IsEditReply outcome result }
{
    match outcome {
        Ok(applied) => Reply::Done {
            built: applied.built,
            cost: applied.cost,
        },
        Err(fault) => Reply::Refused(Refusal::Edit(fault)),
    }
}

/// The reply to an edit, which changes the session where it is accepted.
fn reply_to_edit<R: Threads + Sync, G: Gate + Sync, B: Tag, P: Tag>(
    means: &Means<'_, R, G>,
    session: &mut Session,
    edit: &Edit,
    builds: &mut Builds<B>,
    products: &mut Products<P>,
) -> Reply
    requires { IsEditInRange edit.now }
    ensures grammar { session.new.grammar ≡ session.old.grammar }
    ensures answer { MayReply session.old (command.Change edit.now) result session.new }
    ensures memory { result ≡ no_memory → IsOk (edited session.old.performance edit.now) }
    ensures built { Built builds.old builds.new (IsBuiltByEdit session.old edit.now result) }
    ensures goes_on { result ≢ replies.Bye }
    ensures products { products.old ≤ products.new }
{
    edit_reply(session.apply(means, edit, builds, products))
}

/// Why there is no score, as a reply says it.
fn score_refusal(fault: ScoreFault) -> Refusal
    ensures { result ≡ refusal_of_score fault }
{
    match fault {
        ScoreFault::TooLong { line } => Refusal::ScoreTooLong { line },
        ScoreFault::Memory => Refusal::Edit(EditFault::Memory),
    }
}

/// The reply to a line that asks for the score, by what became of it.
fn score_reply(score: Result<Vec<u8>, ScoreFault>) -> Reply
    ensures { MatchResult score (λ text. result ≡ replies.Text text) (Refuses refusal_of_score result) }
{
    match score {
        Ok(text) => Reply::Text(text),
        Err(fault) => Reply::Refused(score_refusal(fault)),
    }
}

/// The reply to a line that asks for the score.
pub fn reply_with_score(alloc: Global, session: &Session) -> Reply
    ensures answer { MayReply session.now command.Score result session.now }
    ensures goes_on { result ≢ replies.Bye }
{
    score_reply(session.score(alloc))
}

/// Why no alternatives are given, as a reply says it.
fn ask_refusal(fault: AskFault) -> Refusal
    ensures { result ≡ refusal_of_asking fault }
{
    match fault {
        AskFault::NoVoice(channel) => Refusal::Edit(EditFault::NoVoice(channel)),
        AskFault::NoBar(bar) => Refusal::Edit(EditFault::NoBar(bar)),
        AskFault::Memory => Refusal::Edit(EditFault::Memory),
    }
}

/// The reply that shows alternatives.
fn list_reply(alloc: Global, list: &[Alternative]) -> Reply
    requires { All CanBePinned list.now }
    ensures text { ShowsAll list.now result }
    ensures goes_on { result ≢ replies.Bye }
{
    match all_shown(alloc, list) {
        Ok(alts) => Reply::List(alts),
        Err(_error) => Reply::Refused(Refusal::Edit(EditFault::Memory)),
    }
}

/// The reply to a line that asks for alternatives, by what became of it.
fn alternatives_reply(alloc: Global, list: Result<Vec<Alternative>, AskFault>) -> Reply
    requires { IfOk list (λ v. All CanBePinned v.items) }
    ensures reply { MatchResult list (λ v. ShowsAll v.items result) (Refuses refusal_of_asking result) }
    ensures goes_on { result ≢ replies.Bye }
{
    match list {
        Ok(list) => list_reply(alloc, list.as_slice()),
        Err(fault) => Reply::Refused(ask_refusal(fault)),
    }
}

/// The reply to a line that asks for the alternatives of a bar of a voice.
pub fn reply_with_alternatives<P: Tag>(
    alloc: Global,
    session: &Session,
    channel: u8,
    bar: u32,
    count: u32,
    products: &mut Products<P>,
) -> Reply
    ensures answer { MayReply session.now (command.Alternatives channel bar count) result session.now }
    ensures memory { result ≡ no_memory → HasCell session.now.performance channel bar }
    ensures goes_on { result ≢ replies.Bye }
    ensures products { products.old ≤ products.new }
{
    alternatives_reply(
        alloc,
        session.alternatives(alloc, channel, bar, count, products),
    )
}

/// The reply to a line, which changes the session where the line says an edit that is accepted.
pub fn reply_to<R: Threads + Sync, G: Gate + Sync, B: Tag, P: Tag>(
    means: &Means<'_, R, G>,
    session: &mut Session,
    line: &[u8],
    builds: &mut Builds<B>,
    products: &mut Products<P>,
) -> Reply
    ensures grammar { session.new.grammar ≡ session.old.grammar }
    ensures answer { Built builds.old builds.new (RepliesToLine session.old line.now result session.new) }
    ensures ends { (result ≡ replies.Bye) ↔ Quits line.now }
    ensures products { products.old ≤ products.new }
{
    match read_line(means.alloc, line) {
        Ok(Command::Change(edit)) => reply_to_edit(means, session, &edit, builds, products),
        Ok(Command::Score) => reply_with_score(means.alloc, session),
        Ok(
            Command::Alternatives {
                channel,
                bar,
                count,
            },
        ) => reply_with_alternatives(means.alloc, session, channel, bar, count, products),
        Ok(Command::Quit) => Reply::Bye,
        Err(LineFault::BadLine) => Reply::Refused(Refusal::Line),
        Err(LineFault::Memory) => Reply::Refused(Refusal::Edit(EditFault::Memory)),
    }
}
