ghost use Rattle.grammar_file.specs.Printed.{printed};
ghost use Rattle.rhythm_app.specs.Asked.{learn};
ghost use Rattle.rhythm_app.specs.Counting.{CountsAll, CountsFile, CountsPerformance, IsTextLearned};
ghost use Rattle.rhythm_app.specs.Learning.{in_file, midi_stop_of};
ghost use Rattle.rhythm_app.specs.Stages.{HasText};
ghost use Rattle.rhythm_app.specs.declared.learn.TheConstants.{MOST_FILES};
ghost use Rattle.rhythm_app.specs.declared.stop.Stop.TheVariants as stop;
ghost use Rattle.rhythm_base.specs.Readable.{IsReadable};
ghost use Rattle.rhythm_base.specs.declared.limits.TheConstants.{MOST_NOTES};
ghost use Rattle.std.specs.Prelude.{◌≡◌, ◌+◌, ◌≤◌, IfErr, IfOk, Some, drop, length};
ghost use Rattle.weight_learning.specs.Learned as learning;

use crate::inputs::{read_performance, read_rules};
use crate::lent::{Lent, World};
use crate::session::open_session;
use crate::stop::{Kind, MidiStop, Stop};
use grammar_file::print_grammar;
use rhythm_base::{Grammar, Performance, Words, Workers};
use rule_counts::RuleCounts;
use session_counts::count_rules;
use std::alloc::Global;
use weight_learning::{Bit, copied, learned};

/// The most MIDI files that weights are learned from.
pub const MOST_FILES: usize = 256;

/// The stop by a MIDI file that this is, where it is one.
fn midi_stop_of(stop: Stop) -> Option<MidiStop>
    ensures { result ≡ midi_stop_of stop }
{
    match stop {
        Stop::FileTooLong {
            kind: Kind::Midi,
            read,
        } => Some(MidiStop::TooLong { read }),
        Stop::Smf(fault) => Some(MidiStop::Smf(fault)),
        Stop::NoNotes => Some(MidiStop::NoNotes),
        Stop::TooManyNotes { count } => Some(MidiStop::TooManyNotes { count }),
        Stop::BadSignature { num, dd } => Some(MidiStop::BadSignature { num, dd }),
        Stop::UnevenBar { bar, num, den } => Some(MidiStop::UnevenBar { bar, num, den }),
        Stop::TooManyBars { start } => Some(MidiStop::TooManyBars { start }),
        Stop::TooManyCells { count } => Some(MidiStop::TooManyCells { count }),
        Stop::NoStart { bar, num, den } => Some(MidiStop::NoStart { bar, num, den }),
        Stop::NoDerivation { channel, bar } => Some(MidiStop::NoDerivation { channel, bar }),
        Stop::Read(Kind::Midi) => Some(MidiStop::Read),
        _ => None,
    }
}

/// A stop by the MIDI file of this number, from 1.
fn in_file(number: u32, stop: Stop) -> Stop
    ensures { result ≡ in_file number stop }
{
    match midi_stop_of(stop) {
        Some(stop) => Stop::InFile { number, stop },
        None => stop,
    }
}

/// Counts the rules in the least derivations of a performance. Each of its cells is built once, by one of the workers.
fn count_performance<W: World>(
    lent: &mut Lent<W>,
    workers: Workers,
    grammar: &Grammar,
    performance: Performance,
    counts: &mut RuleCounts,
) -> Result<(), Stop>
    requires readable { IsReadable grammar.now }
    requires few_notes { length performance.notes ≤ MOST_NOTES }
    requires of_each { length counts.old ≡ length grammar.now.rules }
    ensures { CountsPerformance grammar.now performance counts.old counts.new lent.old lent.new result }
{
    let Ok(rules) = copied(lent.alloc, grammar) else {
        return Err(Stop::Memory);
    };
    match open_session(lent, workers, rules, performance) {
        Ok(session) => match count_rules(lent.alloc, &session, counts) {
            Ok(()) => Ok(()),
            Err(_error) => Err(Stop::Memory),
        },
        Err(stop) => Err(stop),
    }
}

/// Counts the rules in the least derivations of a MIDI file.
fn count_file<W: World>(
    lent: &mut Lent<W>,
    workers: Workers,
    grammar: &Grammar,
    midi: &str,
    counts: &mut RuleCounts,
) -> Result<(), Stop>
    requires readable { IsReadable grammar.now }
    requires of_each { length counts.old ≡ length grammar.now.rules }
    ensures { CountsFile grammar.now midi.now counts.old counts.new lent.old lent.new result }
{
    match read_performance(lent, midi) {
        Ok(performance) => count_performance(lent, workers, grammar, performance, counts),
        Err(stop) => Err(stop),
    }
}

/// Counts the rules in the least derivations of the MIDI files that the words from the fourth on name, one file after another.
fn count_files<W: World>(
    lent: &mut Lent<W>,
    workers: Workers,
    grammar: &Grammar,
    words: &Words,
    counts: &mut RuleCounts,
) -> Result<(), Stop>
    requires readable { IsReadable grammar.now }
    requires of_each { length counts.old ≡ length grammar.now.rules }
    requires few_words { length words.now ≤ MOST_FILES + 3 }
    ensures { CountsAll grammar.now (drop 3 words.now) counts.old counts.new lent.old lent.new result }
{
    'files: for place in 3..words.count() {
        let midi = words.get(place).unwrap();
        if let Err(stop) = count_file(lent, workers, grammar, midi, counts) {
            return Err(in_file((place - 2) as u32, stop));
        }
    }
    Ok(())
}

/// The text of the grammar with the weights that the counts say.
fn learned_text(
    alloc: Global,
    grammar: &Grammar,
    counts: &RuleCounts,
    bit: Bit,
) -> Result<Vec<u8>, Stop>
    requires readable { IsReadable grammar.now }
    requires of_each { length counts.now ≡ length grammar.now.rules }
    ensures text { IfOk result (λ v. v.items ≡ printed (learning.learned grammar.now counts.now bit)) }
    ensures memory { IfErr result (λ s. s ≡ stop.Memory) }
{
    match learned(alloc, grammar, counts, bit) {
        Ok(weighed) => match print_grammar(alloc, &weighed) {
            Ok(text) => Ok(text),
            Err(_error) => Err(Stop::Memory),
        },
        Err(_error) => Err(Stop::Memory),
    }
}

/// The text of the grammar with the weights that are learned from the MIDI files that the words from the fourth on name.
fn learned_by<W: World>(
    lent: &mut Lent<W>,
    workers: Workers,
    bit: Bit,
    grammar: &Grammar,
    words: &Words,
) -> Result<Vec<u8>, Stop>
    requires readable { IsReadable grammar.now }
    requires few_words { length words.now ≤ MOST_FILES + 3 }
    ensures { IsTextLearned bit grammar.now (drop 3 words.now) lent.old lent.new result }
{
    let Ok(mut counts) = RuleCounts::zeros(lent.alloc, grammar.rules.as_slice().len()) else {
        return Err(Stop::Memory);
    };
    match count_files(lent, workers, grammar, words, &mut counts) {
        Ok(()) => learned_text(lent.alloc, grammar, &counts, bit),
        Err(stop) => Err(stop),
    }
}

/// The text of the grammar of a file with the weights that are learned from the MIDI files that the words from the fourth on name: a rule
/// that is used half as often as another of its symbol costs `bit` more.
pub fn learn_text<W: World>(
    lent: &mut Lent<W>,
    workers: Workers,
    bit: Bit,
    grammar: &str,
    words: &Words,
) -> Result<Vec<u8>, Stop>
    requires few_words { length words.now ≤ MOST_FILES + 3 }
    ensures { HasText (Some (learn bit grammar.now (drop 3 words.now))) lent.old lent.new result }
{
    match read_rules(lent, grammar) {
        Ok(rules) => learned_by(lent, workers, bit, &rules, words),
        Err(stop) => Err(stop),
    }
}
