ghost use Rattle.kern_reader.specs.Tokens as definitions;
ghost use Rattle.kern_reader.specs.Tokens.{IsWellStyle, IsWellToken, token_chord};
ghost use Rattle.std.specs.Prelude.{◌≡◌, ◌<◌, IfSome};
ghost use Rattle.text_words.specs.Marks as marks;

use crate::note::note;
use crate::piece::first_piece;
use crate::token::{Note, Style, TieMark, Token, Writing};
use durations::Recip;
use rhythm_base::Keys;

/// Whether two values without their dots are equal.
fn same_recip(one: Recip, other: Recip) -> bool
    ensures { result ≡ definitions.same_recip one other }
{
    match (one, other) {
        (Recip::Of(m), Recip::Of(n)) => m == n,
        (Recip::Breve, Recip::Breve) => true,
        (Recip::Long, Recip::Long) => true,
        _ => false,
    }
}

/// Whether two marks of a tie are equal.
fn same_tie(one: TieMark, other: TieMark) -> bool
    ensures { result ≡ definitions.same_tie one other }
{
    match (one, other) {
        (TieMark::Absent, TieMark::Absent) => true,
        (TieMark::GoesOn, TieMark::GoesOn) => true,
        (TieMark::Ends, TieMark::Ends) => true,
        _ => false,
    }
}

/// Whether two truths are equal.
fn same_bool(one: bool, other: bool) -> bool
    ensures { result ≡ marks.same_bool one other }
{
    if one { other } else { !other }
}

/// Whether two notes have equal values and marks.
fn same_writing(one: Writing, other: Writing) -> bool
    ensures { result ≡ definitions.same_writing one other }
{
    same_recip(one.value.recip, other.value.recip)
        && one.value.dots == other.value.dots
        && same_bool(one.opens, other.opens)
        && same_tie(one.tie, other.tie)
        && same_bool(one.short, other.short)
}

/// Whether two notes are written alike.
fn same_style(one: Style, other: Style) -> bool
    ensures { result ≡ definitions.same_style one other }
{
    match (one, other) {
        (Style::Grace, Style::Grace) => true,
        (Style::Valued(one), Style::Valued(other)) => same_writing(one, other),
        _ => false,
    }
}

/// Whether a note may stand after another in a chord.
fn follows(before: Note, note: Note) -> bool
    ensures { result ≡ definitions.follows before note }
{
    same_style(before.style, note.style) && before.key < note.key
}

/// The token of a chord of these keys.
fn chord_token(style: Style, keys: Keys) -> Token
    requires { IsWellStyle style }
    ensures token { result ≡ definitions.chord_token style keys }
    ensures well { IsWellToken result }
{
    match style {
        Style::Grace => Token::Grace(keys),
        Style::Valued(writing) => Token::Chord(writing, keys),
    }
}

/// The chord that a text says.
pub(crate) fn chord(text: &[u8]) -> Option<Token>
    ensures token { result ≡ token_chord text.now }
    ensures well { IfSome result IsWellToken }
{
    let (first_text, mut rest) = first_piece(text, b' ');
    let first = note(first_text)?;
    let mut last = first;
    let mut keys = Keys::one(first.key);
    'notes: while let Some(later) = rest {
        let (note_text, after) = first_piece(later, b' ');
        let next = note(note_text)?;
        if !follows(last, next) {
            return None;
        }
        keys = keys.join(Keys::one(next.key));
        last = next;
        rest = after;
    }
    Some(chord_token(first.style, keys))
}
