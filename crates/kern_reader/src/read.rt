ghost use Rattle.kern_reader.specs.Lines.{line_of, takes_memory};
ghost use Rattle.kern_reader.specs.Outcome.{GivesAtEnd, GivesKern, GoesOn, IsLineOrNext, IsLineToRead, StopsAt, score_of};
ghost use Rattle.kern_reader.specs.Reading.{IsReading};
ghost use Rattle.kern_reader.specs.Text.{is_skipped};
ghost use Rattle.text_words.specs.Lines.{text_lines};
ghost use Rattle.kern_reader.specs.declared.fault.KernWhat.TheVariants.{Memory};
ghost use Rattle.kern_reader.specs.declared.line.KernLine.{KernLine};
ghost use Rattle.std.specs.Prelude.{◌≡◌, ◌≢◌, ◌≤◌, ◌<◌, ◌∷◌, List, IfErr, OnErr, OnOk, false, length, true};

use crate::fault::{KernFault, KernWhat};
use crate::line::Stage;
use crate::line_words::begins_with;
use crate::reading::Reading;
use crate::score::KernScore;
use std::alloc::Global;

/// The first line of a text, and the text after its newline.
fn first_line(text: &[u8]) -> (&[u8], &[u8])
    requires { 0 < length text.now }
    ensures line { text_lines text.now ≡ result.0.now ∷ text_lines result.1.now }
    ensures shorter { length result.1.now < length text.now }
{
    match text.iter().position(|byte| *byte == b'\n') {
        Some(end) => (&text[..end], &text[end + 1..]),
        None => (text, &[]),
    }
}

/// Reads the line of this number.
fn read_line(
    reading: &mut Reading,
    alloc: Global,
    number: u32,
    text: &[u8],
) -> Result<(), KernFault>
    requires { (before : List KernLine) × IsReading number before reading.old }
    ensures read { OnOk result (GoesOn number text.now reading.old reading.new) }
    ensures fault { IfErr result (λ fault. fault.what ≢ Memory → StopsAt number text.now reading.old fault) }
    ensures line { IfErr result (λ fault. fault.line ≡ number) }
    ensures said { OnErr result (is_skipped text.now ≡ false) }
    ensures memory { IfErr result (λ fault. fault.what ≡ Memory → takes_memory (line_of text.now) ≡ true) }
{
    if begins_with(b'!', text) {
        return Ok(());
    }
    match reading.read(alloc, text) {
        Ok(()) => Ok(()),
        Err(what) => Err(KernFault { line: number, what }),
    }
}

/// The score of all lines, before the line of this number.
fn score(reading: Reading, number: u32) -> Result<KernScore, KernFault>
    requires { (before : List KernLine) × IsReading number before reading }
    ensures score { GivesAtEnd number reading result }
    ensures line { 1 ≤ number → IfErr result (λ fault. (1 ≤ fault.line) × (fault.line ≤ number)) }
    ensures no_memory { IfErr result (λ fault. fault.what ≢ Memory) }
{
    match reading.stage {
        Stage::Head => Err(KernFault {
            line: 1,
            what: KernWhat::Head,
        }),
        Stage::Body => Err(KernFault {
            line: number,
            what: KernWhat::End,
        }),
        Stage::Last => Err(KernFault {
            line: number,
            what: KernWhat::End,
        }),
        Stage::Over => Ok(KernScore {
            columns: reading.columns,
            grid: reading.grid,
        }),
    }
}

/// Reads a **kern text line by line: its score, or its first line with a fault. Lines that begin with `!` are skipped and
/// counted. Memory is taken for each token, for the columns of one line at a time, and no more.
pub fn read_kern(alloc: Global, bytes: &[u8]) -> Result<KernScore, KernFault>
    // so that the number of a line fits its type
    requires { length bytes.now ≤ 4294967294 }
    ensures score { GivesKern result (score_of bytes.now) }
    // a line of the text, or the one after the last
    ensures line { IfErr result (λ fault. IsLineOrNext bytes.now fault.line) }
    ensures memory { IfErr result (λ fault. fault.what ≡ Memory → IsLineToRead bytes.now fault.line) }
{
    let mut reading = Reading::new(alloc);
    let mut rest = bytes;
    let mut number = 1;
    'lines: while !rest.is_empty() {
        let (line, after) = first_line(rest);
        read_line(&mut reading, alloc, number, line)?;
        rest = after;
        number += 1;
    }
    score(reading, number)
}
