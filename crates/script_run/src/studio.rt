ghost use Rattle.edit_script.specs.declared.reply.Reply.TheVariants as replies;
ghost use Rattle.rhythm_base.specs.EditRanges.{IsEditInRange};
ghost use Rattle.edit_laws.specs.Edits.{edited};
ghost use Rattle.script_run.specs.Answers.{Quits};
ghost use Rattle.script_run.specs.LineReplies.{
  Built,
  IsBuiltByStep,
  IsStepReply,
  MayReplyToEdit,
  RepliesInStudio,
  no_memory,
};
ghost use Rattle.session_history.specs.declared.studio_reply.StudioReply.TheVariants as studio;
ghost use Rattle.std.specs.Prelude.{◌≡◌, ◌≢◌, ◌≤◌, ◌↔◌, IsOk};

use crate::reply::{edit_reply, reply_with_alternatives, reply_with_score};
use carry_matrix::Steps as Products;
use edit_script::{Command, LineFault, Refusal, Reply};
use edit_session::Applied;
use least_cost::Steps as Builds;
use rhythm_base::{Edit, EditFault, Tag};
use rhythm_ports::{Gate, Means};
use session_history::{History, NoStep, StudioCommand, StudioReply, read_studio_line};
use std::thread::Threads;

/// The reply to a line that asks for a step back or on.
fn step_reply(outcome: Result<Applied, NoStep>) -> StudioReply
    ensures { IsStepReply outcome result }
{
    match outcome {
        Ok(applied) => StudioReply::Plain(Reply::Done {
            built: applied.built,
            cost: applied.cost,
        }),
        Err(NoStep) => StudioReply::NoStep,
    }
}

/// The reply to an edit, which becomes the last step where it is accepted.
fn reply_to_edit<R: Threads + Sync, G: Gate + Sync, B: Tag, P: Tag>(
    means: &Means<'_, R, G>,
    history: &mut History,
    edit: &Edit,
    builds: &mut Builds<B>,
    products: &mut Products<P>,
) -> Reply
    requires { IsEditInRange edit.now }
    ensures answer { MayReplyToEdit history.old edit.now result history.new }
    ensures memory { result ≡ no_memory → IsOk (edited history.old.present edit.now) }
    ensures built { Built builds.old builds.new (IsBuiltByStep history.old edit.now result) }
    ensures goes_on { result ≢ replies.Bye }
    ensures products { products.old ≤ products.new }
{
    edit_reply(history.apply(means, edit, builds, products))
}

/// The reply to a line of a studio, which changes the history where the line says an edit that is accepted, or a step that is there.
pub fn studio_reply_to<R: Threads + Sync, G: Gate + Sync, B: Tag, P: Tag>(
    means: &Means<'_, R, G>,
    history: &mut History,
    line: &[u8],
    builds: &mut Builds<B>,
    products: &mut Products<P>,
) -> StudioReply
    ensures answer { Built builds.old builds.new (RepliesInStudio history.old line.now result history.new) }
    ensures ends { (result ≡ studio.Plain replies.Bye) ↔ Quits line.now }
    ensures products { products.old ≤ products.new }
{
    match read_studio_line(means.alloc, line) {
        Ok(StudioCommand::Undo) => step_reply(history.undo(products)),
        Ok(StudioCommand::Redo) => step_reply(history.redo(products)),
        Ok(StudioCommand::Plain(Command::Change(edit))) => {
            StudioReply::Plain(reply_to_edit(means, history, &edit, builds, products))
        }
        Ok(StudioCommand::Plain(Command::Score)) => {
            StudioReply::Plain(reply_with_score(means.alloc, history.session()))
        }
        Ok(
            StudioCommand::Plain(
                Command::Alternatives {
                    channel,
                    bar,
                    count,
                },
            ),
        ) => StudioReply::Plain(reply_with_alternatives(
            means.alloc,
            history.session(),
            channel,
            bar,
            count,
            products,
        )),
        Ok(StudioCommand::Plain(Command::Quit)) => StudioReply::Plain(Reply::Bye),
        Err(LineFault::BadLine) => StudioReply::Plain(Reply::Refused(Refusal::Line)),
        Err(LineFault::Memory) => StudioReply::Plain(Reply::Refused(Refusal::Edit(
            EditFault::Memory,
        ))),
    }
}
