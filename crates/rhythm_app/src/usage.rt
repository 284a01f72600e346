ghost use Rattle.rhythm_app.specs.Ends.{OfSink, ReportsMore, Tells};
ghost use Rattle.rhythm_app.specs.Stops.{stop_line};
ghost use Rattle.rhythm_app.specs.declared.stop.Stop.TheVariants as stop;
ghost use Rattle.std.specs.Prelude.{◌≡◌, ◌++◌, ℕ, IfOk, List};

use crate::line::write_line;
use crate::request::{takes_options, takes_script, words_after};
use crate::stop::Stop;
use command_line::{CommandLine, Invocation, read_words, words_refusal};
use rhythm_base::Words;
use rhythm_ports::{Sink, write_all};
use std::alloc::{AllocError, Global};

/// What is wrong with the words of a command, in one line.
fn command_reason(alloc: Global, line: &CommandLine) -> Result<String, AllocError> {
    let Some(word) = line.words.get(0) else {
        return String::from_str(alloc, "there is no command");
    };
    match words_after(word) {
        Some(_after) if line.options.is_told() && !takes_options(word) => {
            format!(in alloc; "{word} takes no options for the MIDI file")
        }
        Some(_after) if line.script.count() > 0 && !takes_script(word) => {
            format!(in alloc; "{word} takes no script file")
        }
        Some(after) => format!(in alloc; "the command is called as: rhythm {word} {after}"),
        None => format!(in alloc; "there is no command {word}"),
    }
}

/// What is wrong with words that are no command, in one line.
fn reason_of(alloc: Global, words: &Words) -> Result<String, AllocError> {
    if let Some(said) = words_refusal(alloc, words)? {
        return Ok(said);
    }
    match read_words(alloc, words) {
        Ok(Invocation::Command(line)) => command_reason(alloc, &line),
        _ => Err(AllocError),
    }
}

/// The lines for words that are no command: that of the stop, what is wrong with them, and where the help is.
fn usage_text(alloc: Global, words: &Words) -> Result<Vec<u8>, AllocError>
    ensures { IfOk result (λ v. (more : List ℕ) × (v.items ≡ stop_line stop.Usage ++ more)) }
{
    let reason = reason_of(alloc, words)?;
    let more = format!(in alloc; "{reason}\nfor the commands: rhythm --help\n")?;
    let mut text = Vec::from_slice(alloc, b"usage\n")?;
    text.extend_from_slice(more.as_bytes())?;
    Ok(text)
}

/// Writes the lines for words that are no command, or a first part of them where a call fails. Where there is not enough memory for what is
/// wrong with the words, the line of the stop stands alone.
fn write_usage<K: Sink>(alloc: Global, sink: &mut K, words: &Words)
    ensures { OfSink ReportsMore K.taken K.faults sink.old sink.new (stop_line stop.Usage) }
{
    let _written = match usage_text(alloc, words) {
        Ok(text) => write_all(sink, text.as_slice()),
        Err(_error) => write_all(sink, b"usage\n"),
    };
}

/// Writes the line of a stop, or a first part of it where a call fails. After `usage` more lines say what is wrong with the words.
pub fn tell<K: Sink>(alloc: Global, sink: &mut K, words: &Words, stop: &Stop)
    ensures { OfSink Tells K.taken K.faults sink.old sink.new stop.now }
{
    match stop {
        Stop::Usage => write_usage(alloc, sink, words),
        _ => write_line(sink, stop),
    }
}
