ghost use Rattle.edit_script.specs.After.{BeginsPinned, SaysAfter, SaysPin};
ghost use Rattle.edit_script.specs.Reads.{Reads};
ghost use Rattle.edit_script.specs.declared.keyword.Keyword.TheVariants.{Pin};
ghost use Rattle.edit_script.specs.declared.line_fault.LineFault.TheVariants.{BadLine, Memory};
ghost use Rattle.edit_script.specs.ScriptLines.{BeginsPin, IsCommandInRange, SaysCommand, SaysNothing, trimmed};
ghost use Rattle.rhythm_base.specs.ShapeText.{IsShapeText};
ghost use Rattle.std.specs.List.{starts_with};
ghost use Rattle.std.specs.Prelude.{◌≡◌, ⊤, IfErr, IfOk, IsTrue, codes, nat_eq};

use crate::command::Command;
use crate::command_words::{
    LAST_BAR, LAST_CHANNEL, add_note, alone, alternatives, barline, drop_note, move_note, unpin,
};
use crate::keyword::{Keyword, keyword_of};
use crate::line_fault::LineFault;
use crate::line_words::LineWords;
use rhythm_base::{Edit, Shape, ShapeFault};
use std::alloc::Global;

/// The line without one carriage return at its end.
fn trimmed(line: &[u8]) -> &[u8]
    ensures { result.now ≡ trimmed line.now }
{
    match line.strip_suffix(b"\r") {
        Some(front) => front,
        None => line,
    }
}

/// The command of a keyword with these words after it.
fn command(alloc: Global, keyword: Keyword, words: &mut LineWords) -> Result<Command, LineFault>
    ensures { Reads (SaysAfter keyword words.old) ((keyword ≡ Pin) × BeginsPinned words.old) result }
{
    match keyword {
        Keyword::Add => add_note(words).ok_or(LineFault::BadLine),
        Keyword::Drop => drop_note(words).ok_or(LineFault::BadLine),
        Keyword::Move => move_note(words).ok_or(LineFault::BadLine),
        Keyword::Barline => barline(words).ok_or(LineFault::BadLine),
        Keyword::Pin => pin(alloc, words),
        Keyword::Unpin => unpin(words).ok_or(LineFault::BadLine),
        Keyword::AddBar => alone(Command::Change(Edit::AddBar), words).ok_or(LineFault::BadLine),
        Keyword::DropBar => alone(Command::Change(Edit::DropBar), words).ok_or(LineFault::BadLine),
        Keyword::Score => alone(Command::Score, words).ok_or(LineFault::BadLine),
        Keyword::Alt => alternatives(words).ok_or(LineFault::BadLine),
        Keyword::Quit => alone(Command::Quit, words).ok_or(LineFault::BadLine),
    }
}

/// The shape that a text writes.
fn shape(alloc: Global, text: &[u8]) -> Result<Shape, LineFault>
    ensures { Reads (IsShapeText text.now) ⊤ result }
{
    let Ok(text) = std::str::from_utf8(text) else {
        return Err(LineFault::BadLine);
    };
    match Shape::parse(alloc, text) {
        Ok(shape) => Ok(shape),
        Err(ShapeFault::Memory) => Err(LineFault::Memory),
        Err(ShapeFault::BadByte(_at)) => Err(LineFault::BadLine),
        Err(ShapeFault::Cut) => Err(LineFault::BadLine),
    }
}

/// The command of the words after `pin`.
fn pin(alloc: Global, words: &mut LineWords) -> Result<Command, LineFault>
    ensures { Reads (SaysPin words.old) (BeginsPinned words.old) result }
{
    let channel = words.number(LAST_CHANNEL).ok_or(LineFault::BadLine)?;
    let bar = words.number(LAST_BAR).ok_or(LineFault::BadLine)?;
    let shape = shape(alloc, words.text())?;
    Ok(Command::Change(Edit::Pin {
        channel: channel as u8,
        bar,
        shape,
    }))
}

/// Reads a line of an edit script without its newline. One carriage return at its end is dropped, and one space stands
/// between two words.
///
/// A line is `add CHANNEL KEY ONSET END`, `drop CHANNEL KEY ONSET`, `move CHANNEL KEY ONSET TO`, `barline BAR TICK`,
/// `pin CHANNEL BAR SHAPE`, `unpin CHANNEL BAR`, `addbar`, `dropbar`, `score`, `alt CHANNEL BAR COUNT` or `quit`. A channel
/// is 0 to 15, a key 0 to 127, a bar 0 to 4,096, a count 1 to 16; `ONSET`, `END`, `TO` and `TICK` are 0 to 2,000,000,000.
/// A number has one to ten digits and may begin with zeros.
pub fn read_line(alloc: Global, line: &[u8]) -> Result<Command, LineFault>
    ensures command { IfOk result (λ command. SaysCommand line.now command) }
    ensures bad { IfErr result (λ fault. fault ≡ BadLine → SaysNothing line.now) }
    ensures range { IfOk result IsCommandInRange }
    // the channel and the bar of a pin are tested before its shape asks for memory
    ensures shape { IfErr result (λ fault. fault ≡ Memory → BeginsPin line.now) }
    ensures memory { IfErr result (λ fault. fault ≡ Memory → IsTrue (starts_with nat_eq line.now (codes "pin "))) }
{
    let mut words = LineWords::of(trimmed(line));
    let Some(word) = words.next() else {
        return Err(LineFault::BadLine);
    };
    let Some(keyword) = keyword_of(word) else {
        return Err(LineFault::BadLine);
    };
    command(alloc, keyword, &mut words)
}
