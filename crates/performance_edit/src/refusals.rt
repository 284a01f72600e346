ghost use Rattle.rhythm_base.specs.Barlines as barlines;
ghost use Rattle.edit_laws.specs.Edits as edits;
ghost use Rattle.rhythm_base.specs.EditRanges.{IsEditInRange};
ghost use Rattle.performance_edit.specs.Refusals as refusals;
ghost use Rattle.rhythm_base.specs.declared.edit_fault.EditFault.TheVariants.{NotEmpty, NoteOutside};
ghost use Rattle.std.specs.Prelude.{◌≡◌};

use crate::bars::{barline, last_start, next_barline};
use crate::notes::{has_note, has_other, is_past, least_past, moved_to, note_at};
use rhythm_base::{
    Edit, EditFault, LATEST_TICK, LimitKind, MOST_BARS, MOST_CELLS, MOST_NOTES, Note, Notes,
    Performance,
};

/// The channel has no voice.
fn lacks_voice(performance: &Performance, channel: u8) -> bool
    ensures { result ≡ edits.lacks_voice performance.now channel }
{
    !performance.channels().contains(&channel)
}

/// The barline after this one, and a tick past the latest possible one where there is none.
fn barline_after(performance: &Performance, number: usize) -> u64
    ensures { result ≡ barlines.barline_after performance.now number }
{
    if number < performance.bars().len() {
        barline(performance, number + 1)
    } else {
        LATEST_TICK + 1
    }
}

/// Why a note is not added.
fn refusal_of_add(performance: &Performance, note: Note) -> Option<EditFault>
    ensures { result ≡ refusals.refusal performance.now (Edit.Add note.channel note.key note.onset note.end) }
{
    let notes = performance.notes();
    let last = performance.last();
    let count = notes.len() as u64 + 1;
    if lacks_voice(performance, note.channel) {
        Some(EditFault::NoVoice(note.channel))
    } else if note.end < note.onset {
        Some(EditFault::BadSpan)
    } else if has_note(notes, note.channel, note.key, note.onset) {
        Some(EditFault::SameNote)
    } else if is_past(&note, last) {
        Some(EditFault::PastEnd { last })
    } else if count > u64::from(MOST_NOTES) {
        Some(EditFault::Limit {
            what: LimitKind::Notes,
            count,
        })
    } else {
        None
    }
}

/// Why a note is not taken out.
fn refusal_of_drop(performance: &Performance, channel: u8, key: u8, onset: u64) -> Option<EditFault>
    ensures { result ≡ refusals.refusal performance.now (Edit.Drop channel key onset) }
{
    if lacks_voice(performance, channel) {
        Some(EditFault::NoVoice(channel))
    } else if !has_note(performance.notes(), channel, key, onset) {
        Some(EditFault::NoNote)
    } else {
        None
    }
}

/// Why a note does not begin elsewhere.
fn refusal_of_move(
    performance: &Performance,
    channel: u8,
    key: u8,
    onset: u64,
    to: u64,
) -> Option<EditFault>
    requires { IsEditInRange (Edit.Move channel key onset to) }
    ensures { result ≡ refusals.refusal performance.now (Edit.Move channel key onset to) }
{
    let notes = performance.notes();
    let last = performance.last();
    if lacks_voice(performance, channel) {
        return Some(EditFault::NoVoice(channel));
    }
    let Some(note) = note_at(notes, channel, key, onset) else {
        return Some(EditFault::NoNote);
    };
    if has_other(notes, channel, key, onset, to) {
        Some(EditFault::SameNote)
    } else if is_past(&moved_to(&note, to), last) {
        Some(EditFault::PastEnd { last })
    } else {
        None
    }
}

/// Why the last barline is not set: a note would not lie before it.
fn note_outside(notes: &Notes, tick: u64) -> Option<EditFault>
    ensures { result ≡ refusals.fault_past NoteOutside tick notes.now }
{
    least_past(notes, tick).map(|onset| EditFault::NoteOutside { onset })
}

/// Why a bar that starts there is not dropped: it has a note.
fn note_inside(notes: &Notes, start: u64) -> Option<EditFault>
    ensures { result ≡ refusals.fault_past NotEmpty start notes.now }
{
    least_past(notes, start).map(|onset| EditFault::NotEmpty { onset })
}

/// Why a barline is not set.
fn refusal_of_barline(performance: &Performance, bar: u32, tick: u64) -> Option<EditFault>
    ensures { result ≡ refusals.refusal performance.now (Edit.Barline bar tick) }
{
    let count = performance.bars().len();
    let number = bar as usize;
    if number == 0 || number > count {
        return Some(EditFault::NoBar(bar));
    }
    let low = barline(performance, number - 1);
    let high = barline_after(performance, number);
    if !(low < tick && tick < high) {
        return Some(EditFault::BarlineOrder { low, high });
    }
    if number == count {
        note_outside(performance.notes(), tick)
    } else {
        None
    }
}

/// Why nothing can be asked of a cell.
fn refusal_of_cell(performance: &Performance, channel: u8, bar: u32) -> Option<EditFault>
    ensures { result ≡ edits.first_refusal (edits.cell_tests performance.now channel bar) }
{
    if lacks_voice(performance, channel) {
        Some(EditFault::NoVoice(channel))
    } else if performance.bars().len() <= bar as usize {
        Some(EditFault::NoBar(bar))
    } else {
        None
    }
}

/// Why no bar is added.
fn refusal_of_add_bar(performance: &Performance) -> Option<EditFault>
    ensures { result ≡ refusals.refusal performance.now Edit.AddBar }
{
    let bars = performance.bars().len() as u64 + 1;
    let cells = performance.channels().len() as u64 * bars;
    let line = next_barline(performance);
    if bars > u64::from(MOST_BARS) {
        Some(EditFault::Limit {
            what: LimitKind::Bars,
            count: bars,
        })
    } else if cells > u64::from(MOST_CELLS) {
        Some(EditFault::Limit {
            what: LimitKind::Cells,
            count: cells,
        })
    } else if line > LATEST_TICK {
        Some(EditFault::Limit {
            what: LimitKind::Line,
            count: line,
        })
    } else {
        None
    }
}

/// Why the last bar is not dropped.
fn refusal_of_drop_bar(performance: &Performance) -> Option<EditFault>
    ensures { result ≡ refusals.refusal performance.now Edit.DropBar }
{
    if performance.bars().len() == 1 {
        Some(EditFault::OneBar)
    } else {
        note_inside(performance.notes(), last_start(performance))
    }
}

/// The first refusal of an edit.
pub fn refusal(performance: &Performance, edit: &Edit) -> Option<EditFault>
    requires { IsEditInRange edit.now }
    ensures { result ≡ refusals.refusal performance.now edit.now }
{
    match edit {
        Edit::Add {
            channel,
            key,
            onset,
            end,
        } => refusal_of_add(
            performance,
            Note {
                channel: *channel,
                key: *key,
                onset: *onset,
                end: *end,
            },
        ),
        Edit::Drop {
            channel,
            key,
            onset,
        } => refusal_of_drop(performance, *channel, *key, *onset),
        Edit::Move {
            channel,
            key,
            onset,
            to,
        } => refusal_of_move(performance, *channel, *key, *onset, *to),
        Edit::Barline { bar, tick } => refusal_of_barline(performance, *bar, *tick),
        Edit::Pin { channel, bar, .. } | Edit::Unpin { channel, bar } => {
            refusal_of_cell(performance, *channel, *bar)
        }
        Edit::AddBar => refusal_of_add_bar(performance),
        Edit::DropBar => refusal_of_drop_bar(performance),
    }
}
