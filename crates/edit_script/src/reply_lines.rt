ghost use Rattle.edit_script.specs.ReplyText.{alt_lines, alt_text, list_text, refusal_text, reply_text};
ghost use Rattle.edit_script.specs.Sending.{TakesPart, Writes};
ghost use Rattle.edit_script.specs.Replies.{refused_text, score_text};
ghost use Rattle.rhythm_ports.specs.Causes.{HasCause};
ghost use Rattle.std.specs.Prelude.{IfErr, OnOk};
ghost use Rattle.std.specs.Io.KnownBytes.{Appends};

use crate::gathered::Gathered;
use crate::refusal_words::{Details, details_of, name_of};
use crate::reply::{Alt, Refusal, Reply};
use crate::word::{Word, write_line, write_numbers, write_words};
use rhythm_base::EditFault;
use rhythm_ports::{Partial, Sink};

/// Writes the line of a refused edit.
fn write_fault<K: Sink>(sink: &mut K, held: &mut Gathered, fault: EditFault) -> Result<(), Partial>
    ensures written { Writes K.taken sink.old sink.new held.old held.new (refused_text fault) result }
    ensures cause { HasCause (K.faults sink.old) (K.faults sink.new) result }
{
    let refused = Word::Name(b"refused");
    let name = Word::Name(name_of(fault));
    match details_of(fault) {
        Details::None => write_line(sink, held, &[refused, name]),
        Details::One(word) => write_line(sink, held, &[refused, name, word]),
        Details::Two(word, next) => write_line(sink, held, &[refused, name, word, next]),
    }
}

/// Writes the line of a refusal.
fn write_refusal<K: Sink>(
    sink: &mut K,
    held: &mut Gathered,
    refusal: Refusal,
) -> Result<(), Partial>
    ensures written { Writes K.taken sink.old sink.new held.old held.new (refusal_text refusal) result }
    ensures cause { HasCause (K.faults sink.old) (K.faults sink.new) result }
{
    let refused = Word::Name(b"refused");
    match refusal {
        Refusal::Edit(fault) => write_fault(sink, held, fault),
        Refusal::Line => write_line(sink, held, &[refused, Word::Name(b"Line")]),
        Refusal::ScoreTooLong { line } => write_line(
            sink,
            held,
            &[
                refused,
                Word::Name(b"Limit"),
                Word::Name(b"score"),
                Word::Number(u64::from(line)),
            ],
        ),
    }
}

/// Writes the length of a score and the score.
fn write_score<K: Sink>(sink: &mut K, held: &mut Gathered, score: &[u8]) -> Result<(), Partial>
    ensures written { Writes K.taken sink.old sink.new held.old held.new (score_text score.now) result }
    ensures cause { HasCause (K.faults sink.old) (K.faults sink.new) result }
{
    let length = Word::Number(score.len() as u64);
    write_line(sink, held, &[Word::Name(b"score"), length])?;
    held.write(sink, score)
}

/// Writes the line of an alternative.
fn write_alternative<K: Sink>(sink: &mut K, held: &mut Gathered, alt: &Alt) -> Result<(), Partial>
    ensures written { Writes K.taken sink.old sink.new held.old held.new (alt_text alt.now) result }
    ensures cause { HasCause (K.faults sink.old) (K.faults sink.new) result }
{
    let shape = Word::Name(alt.shape.as_bytes());
    write_words(
        sink,
        held,
        &[Word::Name(b"alt"), Word::Number(alt.total), shape],
    )?;
    held.write(sink, b" ")?;
    write_numbers(sink, held, alt.rules.as_slice())?;
    held.write(sink, b"\n")
}

/// Writes the lines of alternatives.
fn write_each<K: Sink>(sink: &mut K, held: &mut Gathered, alts: &[Alt]) -> Result<(), Partial>
    ensures written { Writes K.taken sink.old sink.new held.old held.new (alt_lines alts.now) result }
    ensures cause { HasCause (K.faults sink.old) (K.faults sink.new) result }
{
    'alternatives: for alt in alts {
        write_alternative(sink, held, alt)?;
    }
    Ok(())
}

/// Writes the number of alternatives and a line for each.
fn write_alternatives<K: Sink>(
    sink: &mut K,
    held: &mut Gathered,
    alts: &[Alt],
) -> Result<(), Partial>
    ensures written { Writes K.taken sink.old sink.new held.old held.new (list_text alts.now) result }
    ensures cause { HasCause (K.faults sink.old) (K.faults sink.new) result }
{
    let number = Word::Number(alts.len() as u64);
    write_line(sink, held, &[Word::Name(b"alternatives"), number])?;
    write_each(sink, held, alts)
}

/// Writes a reply.
fn write_gathered<K: Sink>(sink: &mut K, held: &mut Gathered, reply: &Reply) -> Result<(), Partial>
    ensures written { Writes K.taken sink.old sink.new held.old held.new (reply_text reply.now) result }
    ensures cause { HasCause (K.faults sink.old) (K.faults sink.new) result }
{
    match reply {
        Reply::Done { built, cost } => write_line(
            sink,
            held,
            &[Word::Name(b"ok"), Word::Number(*built), Word::Number(*cost)],
        ),
        Reply::Refused(refusal) => write_refusal(sink, held, *refusal),
        Reply::Text(score) => write_score(sink, held, score.as_slice()),
        Reply::List(alts) => write_alternatives(sink, held, alts.as_slice()),
        Reply::Bye => write_line(sink, held, &[Word::Name(b"bye")]),
    }
}

/// Writes the text of a reply to the sink, in one `write_all` where it is not longer than 4,096 bytes. It takes no memory.
pub fn write_reply<K: Sink>(sink: &mut K, reply: &Reply) -> Result<(), Partial>
    ensures all { OnOk result (Appends (K.taken sink.old) (K.taken sink.new) (reply_text reply.now)) }

    // After a failure exactly the first `sent` bytes were taken, and never all. The count stands still at the last value
    // of a `usize`, which no text in memory reaches.
    ensures part { IfErr result (λ e. TakesPart (K.taken sink.old) (K.taken sink.new) e.sent (reply_text reply.now)) }
    ensures cause { HasCause (K.faults sink.old) (K.faults sink.new) result }
{
    let mut held = Gathered::new();
    write_gathered(sink, &mut held, reply)?;
    held.hand_on(sink)
}
