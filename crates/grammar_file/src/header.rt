ghost use Rattle.rhythm_base.specs.declared.limits.TheConstants.{MOST_UNITS};
ghost use Rattle.grammar_file.specs.Content.{IsLineNumber, content_after_first};
ghost use Rattle.grammar_file.specs.Header.{IsMissing, first_says, header_of, most_units, numbers_of, said_number, version_of, weights_of};
ghost use Rattle.grammar_file.specs.Lines.{texts};
ghost use Rattle.grammar_file.specs.Outcome.{FailsWithin, GivesAt};
ghost use Rattle.grammar_file.specs.declared.fault.GrammarWhat.TheVariants.{Memory};
ghost use Rattle.std.specs.Prelude.{◌≡◌, ◌≢◌, ◌≤◌, IfErr, IfOk, OnOk, Some, drop, slice_get};

use crate::fault::{GrammarFault, GrammarWhat, on_line};
use crate::line::{Line, Lines, Next};
use crate::number::{is_numeral, number_within};
use std::alloc::Global;

/// What the first four lines say.
#[derive(Clone, Copy, Debug, PartialEq, Eq)]
pub(crate) struct Header {
    /// 1 or 2.
    pub(crate) version: u8,
    /// The number of units in every bar.
    pub(crate) resolution: u16,
    /// Microseconds within which onsets join a chord.
    pub(crate) window: u32,
    /// The weight of early onsets.
    pub(crate) early: u32,
    /// The weight of late onsets.
    pub(crate) late: u32,
}

/// The version of a file.
fn version(words: &[&[u8]]) -> Result<u8, GrammarWhat>
    ensures { result ≡ version_of (texts words.now) }
{
    match words {
        [key, version] if *key == b"rhythm".as_slice() && *version == b"1".as_slice() => Ok(1),
        [key, version] if *key == b"rhythm".as_slice() && *version == b"2".as_slice() => Ok(2),
        _ => Err(GrammarWhat::Header),
    }
}

/// The number of a line that begins with this word.
fn number(key: &[u8], low: u32, high: u32, words: &[&[u8]]) -> Result<u32, GrammarWhat>
    ensures value { result ≡ said_number key.now low high (texts words.now) }
    ensures within { IfOk result (λ n. n ≤ high) }
{
    match words {
        [first, digits] if *first == key => {
            if is_numeral(digits) {
                number_within(digits, low, high)
            } else {
                Err(GrammarWhat::Line)
            }
        }
        _ => Err(GrammarWhat::Header),
    }
}

/// Both numbers of a line that begins with this word.
fn numbers(key: &[u8], low: u32, high: u32, words: &[&[u8]]) -> Result<(u32, u32), GrammarWhat>
    ensures { result ≡ numbers_of key.now low high (texts words.now) }
{
    match words {
        [first, digits, others] if *first == key => {
            if !(is_numeral(digits) && is_numeral(others)) {
                return Err(GrammarWhat::Line);
            }
            let number = number_within(digits, low, high)?;
            Ok((number, number_within(others, low, high)?))
        }
        _ => Err(GrammarWhat::Header),
    }
}

/// The weights of early and of late onsets.
fn weights(version: u8, words: &[&[u8]]) -> Result<(u32, u32), GrammarWhat>
    ensures { result ≡ weights_of version (texts words.now) }
{
    if version == 2 {
        return numbers(b"onset", 0, 1_000, words);
    }
    let weight = number(b"onset", 0, 1_000, words)?;
    Ok((weight, weight))
}

/// The next line of the header.
fn next_line<'a>(alloc: Global, lines: &mut Lines<'a>) -> Result<Line<'a>, GrammarFault>
    ensures line { IfOk result (λ line. slice_get lines.old.lines 0 ≡ Some line) }
    ensures after { OnOk result (lines.new ≡ content_after_first lines.old) }
    ensures number { IfOk result (λ line. IsLineNumber lines.old.end line.number) }
    ensures at { FailsWithin lines.old.end result }
    ensures end { IfErr result (λ fault. fault.what ≢ Memory → IsMissing lines.old fault) }
{
    match lines.next(alloc)? {
        Next::Line(line) => Ok(line),
        Next::End(number) => Err(GrammarFault {
            line: number,
            what: GrammarWhat::Header,
        }),
    }
}

/// The version that the next line says.
fn read_version(alloc: Global, lines: &mut Lines) -> Result<u8, GrammarFault>
    ensures at { FailsWithin lines.old.end result }
    ensures value { GivesAt result (first_says lines.old version_of) }
    ensures after { OnOk result (lines.new ≡ content_after_first lines.old) }
{
    let line = next_line(alloc, lines)?;
    on_line(line.number, version(line.words.as_slice()))
}

/// The number that the next line says.
fn read_number(
    alloc: Global,
    lines: &mut Lines,
    key: &[u8],
    low: u32,
    high: u32,
) -> Result<u32, GrammarFault>
    ensures at { FailsWithin lines.old.end result }
    ensures value { GivesAt result (first_says lines.old (said_number key.now low high)) }
    ensures within { IfOk result (λ n. n ≤ high) }
    ensures after { OnOk result (lines.new ≡ content_after_first lines.old) }
{
    let line = next_line(alloc, lines)?;
    on_line(line.number, number(key, low, high, line.words.as_slice()))
}

/// The weights that the next line says.
fn read_weights(alloc: Global, lines: &mut Lines, version: u8) -> Result<(u32, u32), GrammarFault>
    ensures at { FailsWithin lines.old.end result }
    ensures value { GivesAt result (first_says lines.old (weights_of version)) }
    ensures after { OnOk result (lines.new ≡ content_after_first lines.old) }
{
    let line = next_line(alloc, lines)?;
    on_line(line.number, weights(version, line.words.as_slice()))
}

/// The most units of a bar.
fn most_units(version: u8) -> u32
    ensures value { result ≡ most_units version }
    ensures few { result ≤ MOST_UNITS }
{
    if version == 2 { 96 } else { 960 }
}

/// What the first four lines say.
pub(crate) fn read_header(alloc: Global, lines: &mut Lines) -> Result<Header, GrammarFault>
    ensures value { GivesAt result (header_of lines.old) }
    ensures at { FailsWithin lines.old.end result }
    ensures end { OnOk result (lines.new.end ≡ lines.old.end) }
    ensures after { OnOk result (lines.new.lines ≡ drop 4 lines.old.lines) }
{
    let version = read_version(alloc, lines)?;
    let resolution = read_number(alloc, lines, b"resolution", 1, most_units(version))?;
    let window = read_number(alloc, lines, b"window", 0, 1_000_000)?;
    let (early, late) = read_weights(alloc, lines, version)?;
    Ok(Header {
        version,
        resolution: resolution as u16,
        window,
        early,
        late,
    })
}
