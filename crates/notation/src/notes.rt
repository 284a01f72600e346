ghost use Rattle.notation.specs.Notes as notes;
ghost use Rattle.notation.specs.Notes.{AreNotes, IsGroup};
ghost use Rattle.notation.specs.Places.{IsOddPart};
ghost use Rattle.notation.specs.Runs.{AreRun};
ghost use Rattle.notation.specs.Spelling.{AddsNotesOf, AreInGrid, AreSpelled, IsNoteValue, IsSpellable, notes_by};
ghost use Rattle.std.specs.Prelude.{◌≡◌, ◌≤◌, ◌++◌, [], All, IfOk, OnOk, if◌then◌else◌};

use crate::grid::{greatest_power, grid};
use crate::note::{Group, Note, Ratio};
use crate::odd::Odd;
use crate::place::whole_of;
use crate::spelling::Spelling;
use crate::ties::join_ties;
use crate::token::Token;
use crate::width::width;
use durations::{Grid, Value, notate};
use rhythm_base::{Keys, Units};
use std::alloc::{AllocError, Global};

/// The grace chords before a note: those of its token before the first.
fn graces<'a>(token: &Token<'a>, first: bool) -> &'a [Keys]
    ensures { result.now ≡ (if first then token.now.graces else []) }
{
    if first { token.graces } else { &[] }
}

/// A value of a token as a note, which is its first or not, and its last or not.
fn note<'a>(by: Spelling, token: &Token<'a>, first: bool, last: bool, value: Value) -> Note<'a>
    requires { IsNoteValue value }
    ensures { result ≡ notes.note by.grid by.whole token.now first last value }
{
    let sounds = !token.is_silent();
    Note {
        duration: width(value, by.whole()) * by.grid(),
        value,
        keys: token.keys,
        graces: graces(token, first),
        is_short: token.is_short && first,
        comes: sounds && (!first || token.comes),
        goes: sounds && (!last || token.goes),
    }
}

/// Appends the notes of a token by these values.
fn push_values<'a>(
    list: &mut Vec<Note<'a>>,
    by: Spelling,
    token: &Token<'a>,
    values: &[Value],
) -> Result<(), AllocError>
    requires { All IsNoteValue values.now }
    ensures { OnOk result (list.new.items ≡ list.old.items ++ notes_by by token.now values.now) }
{
    let mut first = true;
    let mut later = values;
    'values: while let [value, more @ ..] = later {
        list.push(note(by, token, first, more.is_empty(), *value))?;
        first = false;
        later = more;
    }
    Ok(())
}

/// Appends the notes of a token.
fn push_notes<'a>(
    alloc: Global,
    list: &mut Vec<Note<'a>>,
    by: Spelling,
    token: &Token<'a>,
) -> Result<(), AllocError>
    requires { IsSpellable by.grid by.whole token.now }
    ensures { OnOk result (AddsNotesOf by token.now list.old list.new) }
{
    let values = notate(alloc, token.length() / by.grid(), by.whole().count())?;
    push_values(list, by, token, &values)
}

/// The notes of tokens.
fn notes_of<'a>(
    alloc: Global,
    by: Spelling,
    tokens: &[Token<'a>],
) -> Result<Vec<Note<'a>>, AllocError>
    requires { All (IsSpellable by.grid by.whole) tokens.now }
    ensures { IfOk result (λ v. AreNotes by.grid by.whole tokens.now v.items) }
{
    let mut list = Vec::with_capacity(alloc, tokens.len())?;
    'tokens: for token in tokens {
        push_notes(alloc, &mut list, by, token)?;
    }
    Ok(list)
}

/// The notes of a group, in which ties are joined where it has a bracket.
fn spelled<'a>(
    alloc: Global,
    by: Spelling,
    actual: u64,
    tokens: &[Token<'a>],
) -> Result<Vec<Note<'a>>, AllocError>
    requires tokens { All (IsSpellable by.grid by.whole) tokens.now }
    requires places { AreInGrid by.grid tokens.now }
    ensures { IfOk result (λ v. AreSpelled by actual tokens.now v.items) }
{
    if actual == 1 {
        return notes_of(alloc, by, tokens);
    }
    let _whole = by.whole().count();
    let joined = join_ties(alloc, by, tokens)?;
    notes_of(alloc, by, &joined)
}

/// The group of tokens.
pub(crate) fn group<'a>(
    alloc: Global,
    resolution: Units,
    odd: Odd,
    tokens: &[Token<'a>],
) -> Result<Group<'a>, AllocError>
    requires odd { IsOddPart resolution odd }
    requires run { AreRun resolution tokens.now }
    ensures { IfOk result (λ g. IsGroup resolution odd tokens.now g) }
{
    let grid = grid(odd, tokens);
    let part = odd.count();
    let whole = whole_of(resolution).count();
    let actual = part / grid;
    let normal = greatest_power(actual);
    let parts = Grid::of(whole / part * normal);
    let by = Spelling::of(grid, parts);
    let notes = spelled(alloc, by, actual, tokens)?;
    Ok(Group {
        ratio: Ratio { actual, normal },
        notes,
    })
}
