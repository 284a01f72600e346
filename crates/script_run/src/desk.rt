ghost use Rattle.edit_script.specs.declared.reply.Reply.TheVariants as replies;
ghost use Rattle.script_run.specs.Answers.{Quits};
ghost use Rattle.script_run.specs.LineReplies.{Built, RepliesOn};
ghost use Rattle.session_history.specs.declared.studio_reply.StudioReply.TheVariants as studio;
ghost use Rattle.std.specs.Prelude.{◌≡◌, ◌≤◌, ◌↔◌, IsTrue};

use crate::reply::reply_to;
use crate::studio::studio_reply_to;
use carry_matrix::Steps as Products;
use edit_script::Reply;
use edit_session::Session;
use least_cost::Steps as Builds;
use rhythm_base::Tag;
use rhythm_ports::{Gate, Means};
use session_history::{History, StudioReply};
use std::thread::Threads;

/// What answers the lines of a script.
#[derive(Drop)]
pub enum Desk {
    /// An editor: it knows the performance as it is.
    Editor(Session),
    /// A studio: it knows besides how edits are taken back, and made again.
    Studio(History),
}

/// Whether the reply is that to a line that ends the script.
pub fn is_bye(reply: &StudioReply) -> bool
    ensures { IsTrue result ↔ (reply.now ≡ studio.Plain replies.Bye) }
{
    matches!(reply, StudioReply::Plain(Reply::Bye))
}

impl Desk {
    /// The reply to a line, which changes what is edited where it says so.
    pub fn reply_to<R: Threads + Sync, G: Gate + Sync, B: Tag, P: Tag>(
        &mut self,
        means: &Means<'_, R, G>,
        line: &[u8],
        builds: &mut Builds<B>,
        products: &mut Products<P>,
    ) -> StudioReply
        ensures answer { Built builds.old builds.new (RepliesOn self.old line.now result self.new) }
        ensures ends { (result ≡ studio.Plain replies.Bye) ↔ Quits line.now }
        ensures products { products.old ≤ products.new }
    {
        match self {
            Desk::Editor(session) => {
                StudioReply::Plain(reply_to(means, session, line, builds, products))
            }
            Desk::Studio(history) => studio_reply_to(means, history, line, builds, products),
        }
    }
}
