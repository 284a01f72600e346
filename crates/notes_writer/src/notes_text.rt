ghost use Rattle.notes_writer.specs.NotesText.{IsNotesText, bar_record, key_record, note_line, tempo_record};
ghost use Rattle.std.specs.List.{enumerate_from, flat_map};
ghost use Rattle.std.specs.Prelude.{◌≡◌, ◌++◌, IfOk, OnOk};

use crate::by_onset::notes_by_onset;
use crate::line::{Word, push_line};
use rhythm_base::{Bar, KeyMark, Note, Performance, Tempo};
use std::alloc::{AllocError, Global};

/// Appends the line of a bar.
fn push_bar(text: &mut Vec<u8>, number: u64, bar: &Bar) -> Result<(), AllocError>
    ensures { OnOk result (text.new.items ≡ text.old.items ++ bar_record (number, bar.now)) }
{
    let signature = Word::Signature {
        num: bar.num,
        den: bar.den,
    };
    push_line(
        text,
        b"bar",
        &[Word::Number(number), Word::Number(bar.start), signature],
    )
}

/// Appends the lines of bars.
fn push_bars(text: &mut Vec<u8>, bars: &[Bar]) -> Result<(), AllocError>
    ensures { OnOk result (text.new.items ≡ text.old.items ++ flat_map bar_record (enumerate_from 0 bars.now)) }
{
    'bars: for (number, bar) in bars.iter().enumerate() {
        push_bar(text, number as u64, bar)?;
    }
    Ok(())
}

/// Appends the lines of tempos.
fn push_tempos(text: &mut Vec<u8>, tempos: &[Tempo]) -> Result<(), AllocError>
    ensures { OnOk result (text.new.items ≡ text.old.items ++ flat_map tempo_record tempos.now) }
{
    'tempos: for tempo in tempos {
        let micros = Word::Number(u64::from(tempo.micros));
        push_line(text, b"tempo", &[Word::Number(tempo.tick), micros])?;
    }
    Ok(())
}

/// Appends the lines of keys.
fn push_key_marks(text: &mut Vec<u8>, key_marks: &[KeyMark]) -> Result<(), AllocError>
    ensures { OnOk result (text.new.items ≡ text.old.items ++ flat_map key_record key_marks.now) }
{
    'marks: for mark in key_marks {
        push_line(
            text,
            b"key",
            &[Word::Number(mark.tick), Word::Sharps(mark.sf)],
        )?;
    }
    Ok(())
}

/// Appends the line of a note.
fn push_note(text: &mut Vec<u8>, note: &Note) -> Result<(), AllocError>
    ensures { OnOk result (text.new.items ≡ text.old.items ++ note_line note.now) }
{
    let words = [
        Word::Number(u64::from(note.channel)),
        Word::Number(u64::from(note.key)),
        Word::Number(note.onset),
        Word::Number(note.end),
    ];
    push_line(text, b"note", &words)
}

/// Appends the lines of notes.
fn push_notes(text: &mut Vec<u8>, notes: &[Note]) -> Result<(), AllocError>
    ensures { OnOk result (text.new.items ≡ text.old.items ++ flat_map note_line notes.now) }
{
    'notes: for note in notes {
        push_note(text, note)?;
    }
    Ok(())
}

/// What an editing session of a performance starts from, as text of a record a line. Each line ends with a newline, and its words
/// have a space between two:
///
/// ```text
/// bar NUMBER TICK NUM/DEN
/// tempo TICK MICROSECONDS
/// key TICK SHARPS
/// note CHANNEL KEY ONSET END
/// end TICK
/// ```
///
/// The bars come first, then the tempos, the keys and the notes, these by onset, channel and key, and the last barline at the end.
/// Numbers are decimal, and those that the commands of an edit script take: bars are numbered from 0, channels are 0 to 15, keys
/// of notes 0 to 127, and ticks count from the beginning of the file. MICROSECONDS are of a quarter note. SHARPS is -7 to 7, below
/// 0 for flats.
pub fn write_notes(alloc: Global, performance: &Performance) -> Result<Vec<u8>, AllocError>
    ensures { IfOk result (λ v. IsNotesText performance.now v.items) }
{
    let notes = performance.notes();
    let notes = notes.range(alloc, 0, notes.len())?;
    let notes = notes_by_onset(alloc, notes.as_slice())?;
    let mut text = Vec::new(alloc);
    push_bars(&mut text, performance.bars())?;
    push_tempos(&mut text, performance.tempos())?;
    push_key_marks(&mut text, performance.key_marks())?;
    push_notes(&mut text, notes.as_slice())?;
    push_line(&mut text, b"end", &[Word::Number(performance.last())])?;
    Ok(text)
}
