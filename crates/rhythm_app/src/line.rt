ghost use Rattle.edit_script.specs.Replies.{fault_words, reply_line};
ghost use Rattle.rhythm_app.specs.Ends.{OfSink, Reports, Writes};
ghost use Rattle.rhythm_app.specs.Parts.{part_text, part_texts};
ghost use Rattle.rhythm_app.specs.Stops.{
  joined_words,
  limit_line,
  in_file_line,
  midi_stop_line,
  named_line,
  pair_line,
  prepare_stop_line,
  script_fault_line,
  signature_line,
  stop_line,
  upbeat_line,
};
ghost use Rattle.rhythm_app.specs.declared.stop.Stop.TheVariants as stop;
ghost use Rattle.std.specs.Prelude.{decimal};

use crate::names::{
    FaultNumbers, fault_name, fault_numbers, kind_name, smf_name, smf_number, what_name,
    what_number,
};
use crate::stop::{Kind, MidiStop, Stop};
use grammar_file::GrammarFault;
use kern_reader::KernFault;
use performance_prepare::PrepareFault;
use rhythm_base::EditFault;
use rhythm_ports::{Failed, Sink, write_all};
use smf_reader::SmfFault;

/// A piece of a line.
#[derive(Clone, Copy)]
enum Part<'a> {
    Text(&'a str),
    Number(u64),
}

fn write_text<K: Sink>(sink: &mut K, text: &str) -> Result<(), Failed>
    ensures { Writes K.taken K.faults sink.old sink.new text.now result }
{
    write_all(sink, text.as_bytes()).map_err(|_partial| Failed)
}

/// Writes a number, with no memory.
fn write_number<K: Sink>(sink: &mut K, number: u64) -> Result<(), Failed>
    ensures { Writes K.taken K.faults sink.old sink.new (decimal number) result }
{
    let mut buffer = itoa::Buffer::new();
    write_all(sink, buffer.format(number).as_bytes()).map_err(|_partial| Failed)
}

/// Writes a part.
fn write_part<K: Sink>(sink: &mut K, part: Part) -> Result<(), Failed>
    ensures { Writes K.taken K.faults sink.old sink.new (part_text part.entry) result }
{
    match part {
        Part::Text(text) => write_text(sink, text),
        Part::Number(number) => write_number(sink, number),
    }
}

/// Writes the parts one after another, up to the first that fails.
fn write_parts<K: Sink>(sink: &mut K, parts: &[Part]) -> Result<(), Failed>
    ensures { Writes K.taken K.faults sink.old sink.new (joined_words (part_texts parts.now)) result }
{
    'parts: for part in parts {
        write_part(sink, *part)?;
    }
    Ok(())
}

/// Writes a name, and a number after it, where there is one.
fn write_named<'a, K: Sink>(
    sink: &mut K,
    head: &'a str,
    name: &'a str,
    number: Option<u64>,
) -> Result<(), Failed>
    ensures { Writes K.taken K.faults sink.old sink.new (named_line head.now name.now number) result }
{
    let head = Part::Text(head);
    let name = Part::Text(name);
    match number {
        None => write_parts(sink, &[head, name, Part::Text("\n")]),
        Some(number) => {
            let number = Part::Number(number);
            write_parts(
                sink,
                &[head, name, Part::Text(" "), number, Part::Text("\n")],
            )
        }
    }
}

/// Writes what is counted and the number that is above its limit.
fn write_limit<K: Sink>(sink: &mut K, name: &str, count: u64) -> Result<(), Failed>
    ensures { Writes K.taken K.faults sink.old sink.new (limit_line name.now count) result }
{
    write_named(sink, "limit ", name, Some(count))
}

/// Writes the fault of a MIDI file.
fn write_smf_fault<K: Sink>(sink: &mut K, fault: SmfFault) -> Result<(), Failed>
    ensures { Writes K.taken K.faults sink.old sink.new (stop_line (stop.Smf fault)) result }
{
    write_named(sink, "smf ", smf_name(fault), smf_number(fault))
}

/// Writes a line of the grammar file and what is wrong with it.
fn write_grammar_fault<K: Sink>(sink: &mut K, fault: GrammarFault) -> Result<(), Failed>
    ensures { Writes K.taken K.faults sink.old sink.new (stop_line (stop.Grammar fault)) result }
{
    let head = Part::Text("grammar ");
    let line = Part::Number(u64::from(fault.line));
    let space = Part::Text(" ");
    let name = Part::Text(what_name(fault.what));
    let end = Part::Text("\n");
    match what_number(fault.what) {
        None => write_parts(sink, &[head, line, space, name, end]),
        Some(number) => {
            let number = Part::Number(number);
            write_parts(sink, &[head, line, space, name, space, number, end])
        }
    }
}

/// Writes a line of the **kern file and the name of its fault.
fn write_kern_fault<K: Sink>(sink: &mut K, fault: KernFault) -> Result<(), Failed>
    ensures { Writes K.taken K.faults sink.old sink.new (stop_line (stop.Kern fault)) result }
{
    write_parts(
        sink,
        &[
            Part::Text("kern "),
            Part::Number(u64::from(fault.line)),
            Part::Text(" "),
            Part::Text(fault.what.name()),
            Part::Text("\n"),
        ],
    )
}

/// Writes two numbers.
fn write_pair<K: Sink>(sink: &mut K, head: &str, first: u64, second: u64) -> Result<(), Failed>
    ensures { Writes K.taken K.faults sink.old sink.new (pair_line head.now first second) result }
{
    write_parts(
        sink,
        &[
            Part::Text(head),
            Part::Number(first),
            Part::Text(" "),
            Part::Number(second),
            Part::Text("\n"),
        ],
    )
}

/// Writes the two numbers of a signature.
fn write_signature<K: Sink>(sink: &mut K, head: &str, num: u8, dd: u8) -> Result<(), Failed>
    ensures { Writes K.taken K.faults sink.old sink.new (pair_line head.now num dd) result }
{
    write_pair(sink, head, u64::from(num), u64::from(dd))
}

/// Writes a bar and its signature.
fn write_bar<K: Sink>(sink: &mut K, head: &str, bar: u32, num: u8, den: u8) -> Result<(), Failed>
    ensures { Writes K.taken K.faults sink.old sink.new (signature_line head.now bar num den) result }
{
    write_parts(
        sink,
        &[
            Part::Text(head),
            Part::Number(u64::from(bar)),
            Part::Text(" "),
            Part::Number(u64::from(num)),
            Part::Text("/"),
            Part::Number(u64::from(den)),
            Part::Text("\n"),
        ],
    )
}

/// Writes the line of a stop by a MIDI file.
fn write_midi_stop<K: Sink>(sink: &mut K, stop: MidiStop) -> Result<(), Failed>
    ensures { Writes K.taken K.faults sink.old sink.new (midi_stop_line stop) result }
{
    match stop {
        MidiStop::TooLong { read } => write_limit(sink, kind_name(Kind::Midi), read),
        MidiStop::Smf(fault) => write_smf_fault(sink, fault),
        MidiStop::NoNotes => write_text(sink, "notes NoNotes\n"),
        MidiStop::TooManyNotes { count } => write_limit(sink, "notes", count),
        MidiStop::BadSignature { num, dd } => write_signature(sink, "bars BadSignature ", num, dd),
        MidiStop::UnevenBar { bar, num, den } => write_bar(sink, "bars UnevenBar ", bar, num, den),
        MidiStop::TooManyBars { start } => write_limit(sink, "bars", start),
        MidiStop::TooManyCells { count } => write_limit(sink, "cells", count),
        MidiStop::NoStart { bar, num, den } => write_bar(sink, "start ", bar, num, den),
        MidiStop::NoDerivation { channel, bar } => {
            write_pair(sink, "no derivation ", u64::from(channel), u64::from(bar))
        }
        MidiStop::Read => write_named(sink, "read ", kind_name(Kind::Midi), None),
    }
}

/// Writes the number of a MIDI file, and the line of a stop by it.
fn write_in_file<K: Sink>(sink: &mut K, number: u32, stop: MidiStop) -> Result<(), Failed>
    ensures { Writes K.taken K.faults sink.old sink.new (in_file_line number stop) result }
{
    let number = Part::Number(u64::from(number));
    write_parts(sink, &[Part::Text("file "), number, Part::Text(" ")])?;
    write_midi_stop(sink, stop)
}

/// Writes the beats of an upbeat and their value.
fn write_upbeat<K: Sink>(sink: &mut K, num: u8, den: u8) -> Result<(), Failed>
    ensures { Writes K.taken K.faults sink.old sink.new (upbeat_line num den) result }
{
    let num = Part::Number(u64::from(num));
    let den = Part::Number(u64::from(den));
    write_parts(
        sink,
        &[
            Part::Text("upbeat "),
            num,
            Part::Text("/"),
            den,
            Part::Text("\n"),
        ],
    )
}

/// Writes the line of a stop by the options.
fn write_unprepared<K: Sink>(sink: &mut K, fault: PrepareFault) -> Result<(), Failed>
    ensures { Writes K.taken K.faults sink.old sink.new (prepare_stop_line fault) result }
{
    match fault {
        PrepareFault::NoNotes => write_text(sink, "notes NoNotes\n"),
        PrepareFault::TooManyVoices { count } => write_limit(sink, "voices", count),
        PrepareFault::WrongDivision { division } => write_limit(sink, "division", division),
        PrepareFault::TooLate { tick } => write_limit(sink, "ticks", tick),
        PrepareFault::BadUpbeat { num, den } => write_upbeat(sink, num, den),
        PrepareFault::Memory => write_text(sink, "memory\n"),
    }
}

/// Writes why an edit is refused: the name of the fault and its numbers.
fn write_fault<K: Sink>(sink: &mut K, fault: EditFault) -> Result<(), Failed>
    ensures { Writes K.taken K.faults sink.old sink.new (reply_line (fault_words fault)) result }
{
    match fault_numbers(fault) {
        FaultNumbers::None => write_named(sink, "", fault_name(fault), None),
        FaultNumbers::One(number) => write_named(sink, "", fault_name(fault), Some(number)),
        FaultNumbers::Two(first, second) => write_parts(
            sink,
            &[
                Part::Text(fault_name(fault)),
                Part::Text(" "),
                Part::Number(first),
                Part::Text(" "),
                Part::Number(second),
                Part::Text("\n"),
            ],
        ),
        FaultNumbers::Limit(what, count) => write_parts(
            sink,
            &[
                Part::Text(fault_name(fault)),
                Part::Text(" "),
                Part::Text(what),
                Part::Text(" "),
                Part::Number(count),
                Part::Text("\n"),
            ],
        ),
    }
}

/// Writes the number of a line of the script file, and that it says no edit or why its edit is refused.
fn write_refused<K: Sink>(sink: &mut K, line: u32, fault: Option<EditFault>) -> Result<(), Failed>
    ensures { Writes K.taken K.faults sink.old sink.new (script_fault_line line fault) result }
{
    let head = Part::Text("script ");
    let line = Part::Number(u64::from(line));
    match fault {
        None => write_parts(sink, &[head, line, Part::Text(" Line\n")]),
        Some(fault) => {
            write_parts(sink, &[head, line, Part::Text(" ")])?;
            write_fault(sink, fault)
        }
    }
}

/// Writes the line of a stop.
fn write_stop<K: Sink>(sink: &mut K, stop: Stop) -> Result<(), Failed>
    ensures { Writes K.taken K.faults sink.old sink.new (stop_line stop) result }
{
    match stop {
        Stop::Usage => write_text(sink, "usage\n"),
        Stop::FileTooLong { kind, read } => write_limit(sink, kind_name(kind), read),
        Stop::LineTooLong { read } => write_limit(sink, "script-line", read),
        Stop::Smf(fault) => write_midi_stop(sink, MidiStop::Smf(fault)),
        Stop::Grammar(fault) => write_grammar_fault(sink, fault),
        Stop::Kern(fault) => write_kern_fault(sink, fault),
        Stop::NoNotes => write_midi_stop(sink, MidiStop::NoNotes),
        Stop::TooManyNotes { count } => write_midi_stop(sink, MidiStop::TooManyNotes { count }),
        Stop::BadSignature { num, dd } => write_midi_stop(sink, MidiStop::BadSignature { num, dd }),
        Stop::UnevenBar { bar, num, den } => write_midi_stop(
            sink,
            MidiStop::UnevenBar { bar, num, den },
        ),
        Stop::TooManyBars { start } => write_midi_stop(sink, MidiStop::TooManyBars { start }),
        Stop::TooManyCells { count } => write_midi_stop(sink, MidiStop::TooManyCells { count }),
        Stop::NoStart { bar, num, den } => write_midi_stop(
            sink,
            MidiStop::NoStart { bar, num, den },
        ),
        Stop::NoDerivation { channel, bar } => write_midi_stop(
            sink,
            MidiStop::NoDerivation { channel, bar },
        ),
        Stop::Unprepared(fault) => write_unprepared(sink, fault),
        Stop::ScoreTooLong { line } => write_limit(sink, "score", u64::from(line)),
        Stop::RenderTooLong { tick } => write_limit(sink, "render", tick),
        Stop::InFile { number, stop } => write_in_file(sink, number, stop),
        Stop::TooManyFiles { count } => write_limit(sink, "files", count),
        Stop::TooManyCandidates { count } => write_limit(sink, "candidates", count),
        Stop::NoBarline { bar } => write_named(sink, "fit ", "NoBar", Some(u64::from(bar))),
        Stop::NoCandidate => write_named(sink, "fit ", "NoCandidate", None),
        Stop::ScriptLine { line, fault } => write_refused(sink, line, fault),
        Stop::Read(kind) => write_named(sink, "read ", kind_name(kind), None),
        Stop::Write => write_text(sink, "write\n"),
        Stop::Memory => write_text(sink, "memory\n"),
    }
}

/// Writes the line of a stop, or a first part of it where a call fails.
pub fn write_line<K: Sink>(sink: &mut K, stop: &Stop)
    ensures { OfSink Reports K.taken K.faults sink.old sink.new (stop_line stop.now) }
{
    let _written = write_stop(sink, *stop);
}
