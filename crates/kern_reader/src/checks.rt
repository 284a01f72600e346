ghost use Rattle.kern_reader.specs.Faults as definitions;
ghost use Rattle.std.specs.List.{list_all, list_any};
ghost use Rattle.std.specs.Prelude.{◌≡◌, ◌<◌, ◌^◌, All, nat_lt, is_some};

use crate::line::KernLine;
use crate::spine::{Spine, marks_tie};
use crate::token::{Token, Writing};
use durations::Grid;
use rhythm_base::Keys;
use text_words::TimeSignature;

/// Whether the token is a dot.
fn is_null(token: &Token) -> bool
    ensures { result ≡ definitions.is_null token.now }
{
    matches!(*token, Token::Null)
}

/// Whether the token is a grace chord.
fn is_grace(token: &Token) -> bool
    ensures { result ≡ definitions.is_grace token.now }
{
    matches!(*token, Token::Grace(_))
}

/// The least place of the spines.
fn least_place(spines: &[Spine]) -> u64
    ensures { result ≡ definitions.least_place spines.now }
{
    match spines {
        [] => 0,
        [first, rest @ ..] => {
            let mut least = first.place;
            'spines: for spine in rest {
                least = least.min(spine.place);
            }
            least
        }
    }
}

/// Whether a token may stand in a spine, in a line with a grace or without.
fn stands(grace: bool, least: u64, token: &Token, place: u64) -> bool
    ensures { result ≡ definitions.stands grace least token.now place }
{
    let at_least = place == least;
    if grace {
        is_null(token) || (is_grace(token) && at_least)
    } else if is_null(token) {
        !at_least
    } else {
        at_least
    }
}

/// Whether some token is a grace chord.
fn has_grace(tokens: &[Token]) -> bool
    ensures { result ≡ list_any definitions.is_grace tokens.now }
{
    tokens.iter().any(|token| is_grace(token))
}

/// Whether all tokens may stand in their spines.
fn all_stand(grace: bool, least: u64, spines: &[Spine], tokens: &[Token]) -> bool
    ensures { result ≡ definitions.all_stand grace least spines.now tokens.now }
{
    tokens
        .iter()
        .zip(spines)
        .all(|(token, spine)| stands(grace, least, token, spine.place))
}

/// Whether the tokens are where their spines are.
fn are_placed(spines: &[Spine], tokens: &[Token]) -> bool
    ensures { result ≡ definitions.are_placed spines.now tokens.now }
{
    all_stand(has_grace(tokens), least_place(spines), spines, tokens)
}

#[tactic(auto, unfolding(crate::specs::Faults::is_misplaced))]
/// Whether data stands outside a bar or out of place.
pub(crate) fn is_misplaced(bar: Option<TimeSignature>, spines: &[Spine], line: &KernLine) -> bool
    ensures { result ≡ definitions.is_misplaced bar spines.now line.now }
{
    match line {
        KernLine::Data(tokens) => bar.is_none() || !are_placed(spines, tokens.as_slice()),
        _ => false,
    }
}

/// Whether a token may not stand after so many grace chords.
fn is_grace_wrong(token: Token, waiting: u64) -> bool
    ensures { result ≡ definitions.is_grace_wrong token waiting }
{
    match token {
        Token::Bar(_signature) => false,
        Token::Null => false,
        Token::Rest(_value) => waiting > 0,
        Token::Grace(_keys) => waiting >= 3,
        Token::Chord(writing, _keys) => marks_tie(writing.tie) && waiting > 0,
    }
}

/// Whether grace chords wait in some spine.
fn some_wait(spines: &[Spine]) -> bool
    ensures { result ≡ list_any (λ s. nat_lt 0 s.graces) spines.now }
{
    spines.iter().any(|spine| spine.graces > 0)
}

/// Whether some token may not stand after the grace chords before it.
fn some_grace_wrong(spines: &[Spine], tokens: &[Token]) -> bool
    ensures { result ≡ definitions.some_grace_wrong spines.now tokens.now }
{
    tokens
        .iter()
        .zip(spines)
        .any(|(token, spine)| is_grace_wrong(*token, spine.graces))
}

#[tactic(auto, unfolding(crate::specs::Faults::has_wrong_grace))]
/// Whether grace chords have no main note after them, or are too many.
pub(crate) fn has_wrong_grace(spines: &[Spine], line: &KernLine) -> bool
    ensures { result ≡ definitions.has_wrong_grace spines.now line.now }
{
    match line {
        KernLine::Data(tokens) => some_grace_wrong(spines, tokens.as_slice()),
        KernLine::Barline => some_wait(spines),
        KernLine::LastBarline => some_wait(spines),
        _ => false,
    }
}

/// Whether the spines have filled their bar.
fn are_filled(grid: Grid, signature: TimeSignature, spines: &[Spine]) -> bool
    requires { All (λ s. s.place < 2 ^ 56) spines.now }
    ensures { result ≡ list_all (definitions.is_filled grid signature) spines.now }
{
    let parts = u64::from(signature.num) * grid.count();
    spines
        .iter()
        .all(|spine| spine.place * u64::from(signature.den) == parts)
}

/// Whether a bar that has begun is not full.
fn is_unfilled(grid: Grid, bar: Option<TimeSignature>, spines: &[Spine]) -> bool
    requires { All (λ s. s.place < 2 ^ 56) spines.now }
    ensures { result ≡ definitions.is_unfilled grid bar spines.now }
{
    match bar {
        None => false,
        Some(signature) => !are_filled(grid, signature, spines),
    }
}

#[tactic(auto, unfolding(crate::specs::Faults::is_wrong_bar))]
/// Whether a barline ends a bar that is not full, or begins one without a signature.
pub(crate) fn is_wrong_bar(
    grid: Grid,
    bar: Option<TimeSignature>,
    next: Option<TimeSignature>,
    spines: &[Spine],
    line: &KernLine,
) -> bool
    requires { All (λ s. s.place < 2 ^ 56) spines.now }
    ensures { result ≡ definitions.is_wrong_bar grid bar next spines.now line.now }
{
    match line {
        KernLine::Barline => is_unfilled(grid, bar, spines) || next.is_none(),
        KernLine::LastBarline => is_unfilled(grid, bar, spines),
        _ => false,
    }
}

/// Whether a chord continues a tie that is not open, or does not continue one that is.
fn is_chord_untied(writing: Writing, keys: Keys, tied: Option<Keys>) -> bool
    ensures { result ≡ definitions.is_chord_untied writing keys tied }
{
    match tied {
        None => marks_tie(writing.tie),
        Some(tied) => writing.opens || !marks_tie(writing.tie) || keys != tied,
    }
}

/// Whether a token may not stand where these keys are tied.
fn is_tie_wrong(token: Token, tied: Option<Keys>) -> bool
    ensures { result ≡ definitions.is_tie_wrong token tied }
{
    match token {
        Token::Bar(_signature) => false,
        Token::Null => false,
        Token::Grace(_keys) => false,
        Token::Rest(_value) => tied.is_some(),
        Token::Chord(writing, keys) => is_chord_untied(writing, keys, tied),
    }
}

/// Whether some token may not stand where its spine is tied.
fn some_tie_wrong(spines: &[Spine], tokens: &[Token]) -> bool
    ensures { result ≡ definitions.some_tie_wrong spines.now tokens.now }
{
    tokens
        .iter()
        .zip(spines)
        .any(|(token, spine)| is_tie_wrong(*token, spine.tied))
}

/// Whether a tie is open in some spine.
fn some_tied(spines: &[Spine]) -> bool
    ensures { result ≡ list_any (λ s. is_some s.tied) spines.now }
{
    spines.iter().any(|spine| spine.tied.is_some())
}

#[tactic(auto, unfolding(crate::specs::Faults::has_wrong_tie))]
/// Whether a tie is not continued, or one that is not open is, or one is open at the end.
pub(crate) fn has_wrong_tie(spines: &[Spine], line: &KernLine) -> bool
    ensures { result ≡ definitions.has_wrong_tie spines.now line.now }
{
    match line {
        KernLine::Data(tokens) => some_tie_wrong(spines, tokens.as_slice()),
        KernLine::LastBarline => some_tied(spines),
        _ => false,
    }
}
