ghost use Rattle.kern_writer.specs.Columns as definitions;
ghost use Rattle.kern_writer.specs.Columns.{AreDataRecords, RiseFrom, earlier_place, tokens_after};
ghost use Rattle.kern_writer.specs.Records.{grace_record, grace_records_at, main_record, records_at};
ghost use Rattle.kern_writer.specs.Writing.{IsBounded, WritesRecords, WritesSome};
ghost use Rattle.std.specs.Prelude.{◌≡◌, ◌+◌, ◌∷◌, [], All, map};

use crate::column::Column;
use crate::fault::ScoreFault;
use crate::kern_text::KernText;
use score_words::push_between;

/// The earlier of two places.
fn earlier(first: Option<u64>, second: Option<u64>) -> Option<u64>
    ensures { result ≡ earlier_place first second }
{
    match (first, second) {
        (None, place) => place,
        (place, None) => place,
        (Some(one), Some(other)) => Some(one.min(other)),
    }
}

/// The first place at which some column has a token.
fn next_place(columns: &[Column]) -> Option<u64>
    ensures { result ≡ definitions.next_place columns.now }
{
    let mut next = None;
    'columns: for column in columns {
        next = earlier(next, column.place());
    }
    next
}

/// The greatest number of grace tokens of a column at a place that none is before.
fn most_graces(columns: &[Column], place: u64) -> usize
    requires { All (RiseFrom place) columns.now }
    ensures { result ≡ grace_records_at place columns.now }
{
    let mut most = 0;
    'columns: for column in columns {
        most = most.max(column.grace_count(place));
    }
    most
}

/// Writes a grace record, before so many later ones and the main one.
fn write_graces(
    text: &mut KernText,
    columns: &[Column],
    place: u64,
    later: usize,
) -> Result<(), ScoreFault>
    requires text { IsBounded text.old }
    requires place { All (RiseFrom place) columns.now }
    ensures { WritesRecords (grace_record place columns.now (later + 1) ∷ []) text.old result text.new }
{
    'columns: for (number, column) in columns.iter().enumerate() {
        push_between(&mut text.bytes, b'\t', number)?;
        column.push_grace(&mut text.bytes, place, later)?;
    }
    text.end_record()
}

/// Writes a main record.
fn write_main(text: &mut KernText, columns: &[Column], place: u64) -> Result<(), ScoreFault>
    requires text { IsBounded text.old }
    requires place { All (RiseFrom place) columns.now }
    ensures { WritesRecords (main_record place columns.now ∷ []) text.old result text.new }
{
    'columns: for (number, column) in columns.iter().enumerate() {
        push_between(&mut text.bytes, b'\t', number)?;
        column.push_main(&mut text.bytes, place)?;
    }
    text.end_record()
}

/// Writes the records at a place that no token is before.
fn write_place(text: &mut KernText, columns: &[Column], place: u64) -> Result<(), ScoreFault>
    requires text { IsBounded text.old }
    requires place { All (RiseFrom place) columns.now }
    ensures { WritesRecords (records_at columns.now place) text.old result text.new }
{
    let mut left = most_graces(columns, place);
    'graces: while left > 0 {
        left -= 1;
        write_graces(text, columns, place, left)?;
    }
    write_main(text, columns, place)
}

/// Passes over the tokens at a place that none is before.
fn pass(columns: &mut [Column], place: u64)
    requires { All (RiseFrom place) columns.old }
    ensures { columns.new ≡ map (tokens_after place) columns.old }
{
    'columns: for column in columns.iter_mut() {
        column.pass(place);
    }
}

/// Writes the records of all that is still to be written of the columns of a bar.
pub(crate) fn write_data(text: &mut KernText, columns: &mut [Column]) -> Result<(), ScoreFault>
    requires text { IsBounded text.old }
    requires place { All (RiseFrom 0) columns.old }
    ensures { WritesSome (AreDataRecords columns.old) text.old result text.new }
{
    'places: while let Some(place) = next_place(columns) {
        write_place(text, columns, place)?;
        pass(columns, place);
    }
    Ok(())
}
