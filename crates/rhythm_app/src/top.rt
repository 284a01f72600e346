ghost use Rattle.command_line.specs.CommandLines.{HasOptions};
ghost use Rattle.rhythm_app.specs.Asked.{asked_by, asked_of};
ghost use Rattle.rhythm_app.specs.Ends.{HasStatus, IsAllAnswered, IsComplete, IsErrUntouched, IsPerformed, IsStoppedBy, IsWriteCut, KeepsRest, OfSink};
ghost use Rattle.rhythm_app.specs.Stages.{HasText, IsFinished, IsTextWritten, TellsTooMany};
ghost use Rattle.rhythm_app.specs.Asked.{IsRequestInRange, AsksForText, shown_request};
ghost use Rattle.rhythm_app.specs.declared.stop.Stop.TheVariants as stop;
ghost use Rattle.rhythm_app.specs.declared.stop.Stop.{Stop};
ghost use Rattle.std.specs.Io.KnownBytes.{Appends};
ghost use Rattle.std.specs.Option.{ForSome};
ghost use Rattle.std.specs.Prelude.{◌≡◌, ◌≢◌, ◌↔◌, ◌⊎◌, Err, IfErr, None, OnOk};

use crate::answering::answer;
use crate::drill::drill_text;
use crate::events::events_text;
use crate::fit::fit_text_of;
use crate::follow::follow_text;
use crate::generate::piece_bytes;
use crate::help::{help, version};
use crate::learn::learn_text;
use crate::lent::{Lent, World};
use crate::notes::notes_text_of;
use crate::request::{Request, request_of, workers_of};
use crate::stop::Stop;
use crate::usage::tell;
use crate::writing::session_text;
use command_line::{Invocation, WordsFault, read_words};
use rhythm_base::{Words, Workers};
use rhythm_gen::{PieceBars, PieceNumber};
use rhythm_ports::{Sink, write_all};
use weight_learning::Bit;

/// Writes a text by one `write_all`.
fn put<K: Sink>(sink: &mut K, text: &[u8]) -> Result<(), Stop>
    ensures all { OnOk result (Appends (K.taken sink.old) (K.taken sink.new) text.now) }
    ensures part { IfErr result (OfSink IsWriteCut K.taken K.faults sink.old sink.new text.now) }
{
    match write_all(sink, text) {
        Ok(()) => Ok(()),
        Err(_partial) => Err(Stop::Write),
    }
}

/// Writes a text to out.
fn write_text<W: World>(lent: &mut Lent<W>, text: &[u8]) -> Result<(), Stop>
    ensures { IsTextWritten text.now lent.old lent.new result }
{
    put(&mut lent.out, text)
}

/// Writes the text of a command, where it is had: nothing before it is whole.
fn finish<W: World>(lent: &mut Lent<W>, text: Result<Vec<u8>, Stop>) -> Result<(), Stop>
    ensures { IsFinished text lent.old lent.new result }
{
    match text {
        Ok(text) => write_text(lent, text.as_slice()),
        Err(stop) => Err(stop),
    }
}

/// The text that is asked for. An answer to a script is none.
fn text_asked<W: World>(
    lent: &mut Lent<W>,
    workers: Workers,
    request: Request,
) -> Result<Vec<u8>, Stop>
    requires text { AsksForText request }
    requires range { IsRequestInRange request }
    ensures text { HasText (Some (shown_request request.entry)) lent.old lent.new result }
    ensures too_many { TellsTooMany request.entry result }
{
    match request {
        Request::Help => help(lent),
        Request::Version => version(lent),
        Request::Write(form, inputs) => session_text(lent, workers, form, inputs),
        Request::Answer(_, _) => unreachable!(),
        Request::Fit { inputs, among } => fit_text_of(lent, workers, inputs, among),
        Request::TooManyCandidates { count } => Err(Stop::TooManyCandidates { count }),
        Request::Learn {
            bit,
            grammar,
            words,
        } => learn_text(lent, workers, Bit::of(bit), grammar, words),
        Request::TooManyFiles { count } => Err(Stop::TooManyFiles { count }),
        Request::Follow(inputs) => follow_text(lent, workers, inputs),
        Request::Notes { midi, options } => notes_text_of(lent, midi, options),
        Request::Events(kern) => events_text(lent, kern),
        Request::Generate { number, bars } => {
            piece_bytes(lent, PieceNumber::of(number), PieceBars::of(bars))
        },
        Request::Drill { number, grammar } => {
            drill_text(lent, workers, PieceNumber::of(number), grammar)
        },
    }
}

/// Does what is asked for, up to the first stop.
fn perform<W: World>(lent: &mut Lent<W>, said: &Invocation) -> Result<(), Stop>
    requires { HasOptions said.now }
    ensures usage { (result ≡ Err stop.Usage) ↔ (asked_of said.now ≡ None) }
    ensures performed { IsPerformed (asked_of said.now) lent.old lent.new result }
{
    let workers = workers_of(said);
    match request_of(said) {
        None => Err(Stop::Usage),
        Some(Request::Answer(talk, inputs)) => answer(lent, workers, talk, inputs),
        Some(request) => {
            let text = text_asked(lent, workers, request);
            finish(lent, text)
        }
    }
}

/// Does what the words ask for, up to the first stop.
fn perform_words<W: World>(lent: &mut Lent<W>, words: &Words) -> Result<(), Stop>
    ensures usage { result ≡ Err stop.Usage → asked_by words.now ≡ None }
    ensures unusable { asked_by words.now ≡ None → (result ≡ Err stop.Usage) ⊎ (result ≡ Err stop.Memory) }
    ensures performed { IsPerformed (asked_by words.now) lent.old lent.new result }
{
    match read_words(lent.alloc, words) {
        Ok(said) => perform(lent, &said),
        Err(WordsFault::Refused) => Err(Stop::Usage),
        Err(WordsFault::Memory) => Err(Stop::Memory),
    }
}

/// Does what the words ask for with what is lent, and answers how it ended.
///
/// 0: a text is written, or the script is answered. 1: the words are no command. 2: a file is refused, or has no
/// bars of notes that the grammar has root symbols for. 3: no derivation fits. 4: a quantity is above its limit. 5: a read failed.
/// 6: a write failed. 7: there was not enough memory; in a script this comes only before its first line is answered. 9: no tick is
/// fitted to the barline.
pub fn run<W: World>(lent: &mut Lent<W>, words: &Words) -> u8
    // 1 comes only where nothing is asked for: `clap` refuses the words, the word of an option is out of range, or the words without the
    // options are no command, or none that takes them. There no other status comes but 7, where there was not enough memory to read the words. Plain words are
    // never refused by `clap`, and what they ask for is told without it.
    ensures usage { result ≡ 1 → asked_by words.now ≡ None }
    ensures unusable { asked_by words.now ≡ None → (result ≡ 1) ⊎ (result ≡ 7) }

    // The status is that of the outcome of the words and the files: 0 of a text or a script, and 6 where a write fails; that of a
    // stop. A failed read and want of memory end any run, and a script ends at its limits.
    ensures status { ForSome lent.old.files (λ files. HasStatus words.now files result) }

    // With 0 out took the text that is the outcome, or the replies to all lines of the script; all cells of the performance were built
    // once, and then those for the edits; and err took nothing.
    ensures done { result ≡ 0 → IsAllAnswered (asked_by words.now) lent.old lent.new }
    ensures silent { result ≡ 0 → IsErrUntouched lent.old lent.new }

    // Else err took the line of the stop, which is the outcome or a failure that came, and out what was written by then. After `usage`
    // more lines say what is wrong with the words.
    ensures stop { result ≢ 0 → IsStoppedBy (asked_by words.now) result lent.old lent.new }

    // Whatever the end: no name is opened but the command's, the script is read only by `edit` and `studio`, and no counter falls.
    ensures rest { KeepsRest (asked_by words.now) lent.old lent.new }

    // Where the tests pass and no count rose, all is written, a script is over a limit, or there was not enough memory.
    ensures complete { ForSome lent.old.files (λ files. IsComplete words.now files lent.old lent.new result) }
{
    match perform_words(lent, words) {
        Ok(()) => 0,
        Err(stop) => {
            tell(lent.alloc, &mut lent.err, words, &stop);
            stop.status()
        }
    }
}
