ghost use Rattle.edit_script.specs.Sending.{TakesPart};
ghost use Rattle.edit_script.specs.declared.line_fault.LineFault.TheVariants.{BadLine, Memory};
ghost use Rattle.edit_script.specs.ScriptLines.{BeginsPin};
ghost use Rattle.rhythm_ports.specs.Causes.{HasCause};
ghost use Rattle.session_history.specs.StudioLines.{IsStudioCommandInRange, SaysNoStudio, SaysStudio};
ghost use Rattle.session_history.specs.StudioReplies.{studio_reply_text};
ghost use Rattle.std.specs.Io.KnownBytes.{Appends};
ghost use Rattle.std.specs.List.{starts_with};
ghost use Rattle.std.specs.Prelude.{◌≡◌, IfErr, IfOk, IsTrue, OnOk, codes, nat_eq};

use crate::studio_command::StudioCommand;
use crate::studio_reply::StudioReply;
use edit_script::{LineFault, read_line, write_reply};
use rhythm_ports::{Partial, Sink, write_all};
use std::alloc::Global;

/// Reads a line of a studio without its newline: `undo`, `redo`, or a line of an edit script. One carriage return at its end is
/// dropped. `undo` and `redo` take no memory.
pub fn read_studio_line(alloc: Global, line: &[u8]) -> Result<StudioCommand, LineFault>
    ensures command { IfOk result (λ command. SaysStudio line.now command) }
    ensures bad { IfErr result (λ fault. fault ≡ BadLine → SaysNoStudio line.now) }
    ensures range { IfOk result IsStudioCommandInRange }
    ensures shape { IfErr result (λ fault. fault ≡ Memory → BeginsPin line.now) }
    ensures memory { IfErr result (λ fault. fault ≡ Memory → IsTrue (starts_with nat_eq line.now (codes "pin "))) }
{
    let word = line.strip_suffix(b"\r").unwrap_or(line);
    match word {
        _ if word == b"undo".as_slice() => Ok(StudioCommand::Undo),
        _ if word == b"redo".as_slice() => Ok(StudioCommand::Redo),
        _ => Ok(StudioCommand::Plain(read_line(alloc, line)?)),
    }
}

/// Writes the text of a reply to the sink. It takes no memory.
pub fn write_studio_reply<K: Sink>(sink: &mut K, reply: &StudioReply) -> Result<(), Partial>
    ensures all { OnOk result (Appends (K.taken sink.old) (K.taken sink.new) (studio_reply_text reply.now)) }
    // After a failure exactly the first `sent` bytes were taken, and never all.
    ensures part { IfErr result (λ e. TakesPart (K.taken sink.old) (K.taken sink.new) e.sent (studio_reply_text reply.now)) }
    ensures cause { HasCause (K.faults sink.old) (K.faults sink.new) result }
{
    match reply {
        StudioReply::Plain(reply) => write_reply(sink, reply),
        StudioReply::NoStep => write_all(sink, b"refused NoStep\n"),
    }
}
