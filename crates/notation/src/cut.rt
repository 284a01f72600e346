ghost use Rattle.durations.specs.Value.{plain_grid};
ghost use Rattle.notation.specs.Runs.{IsInBar};
ghost use Rattle.notation.specs.Spelling.{IsNoteValue};
ghost use Rattle.notation.specs.Tokens as tokens;
ghost use Rattle.notation.specs.Tokens.{cut_parts, value_graces};
ghost use Rattle.voice_values.specs.GoesOn.{next_in_column};
ghost use Rattle.derivation.specs.Score.{IsScoreBar};
ghost use Rattle.rhythm_base.specs.SoundKinds as kinds;
ghost use Rattle.std.specs.Prelude.{◌≡◌, ◌*◌, ◌<◌, ◌≤◌, ◌++◌, ◌^◌, ◌&&◌, All, IfOk, OnOk, if◌then◌else◌};

use crate::odd::Odd;
use crate::place::{is_plain, whole_of};
use crate::token::Token;
use crate::width::width;
use derivation::ScoreBar;
use durations::Value;
use rhythm_base::{Keys, SoundKind, Units};
use std::alloc::{AllocError, Global};
use voice_values::VoiceValue;

/// The grace chords before a value: those of its leaf before the first.
fn graces<'a>(value: &VoiceValue<'a>) -> &'a [Keys]
    ensures { result.now ≡ value_graces value.now }
{
    let sound = value.sound;
    if value.first {
        sound.graces.as_slice()
    } else {
        &[]
    }
}

/// Whether a value is the first one of a short leaf.
fn is_short(value: &VoiceValue) -> bool
    ensures { result ≡ (kinds.is_short value.now.sound.kind && value.now.first) }
{
    matches!(value.sound.kind, SoundKind::Short) && value.first
}

/// The token of a value, after which one follows that goes on, or none that does.
fn value_token<'a>(
    resolution: Units,
    bar: &ScoreBar,
    goes: bool,
    value: &VoiceValue<'a>,
) -> Token<'a>
    requires bar { IsScoreBar bar.now }
    requires value { IsInBar resolution bar.now value.now }
    ensures { result ≡ tokens.value_token resolution bar.now goes value.now }
{
    let start = value.place * (64 / u64::from(bar.den));
    Token {
        start,
        end: start + width(value.value, whole_of(resolution)),
        keys: value.sound.keys,
        graces: graces(value),
        is_short: is_short(value),
        comes: value.goes_on(),
        goes,
    }
}

/// How many dots of a token may be cut off: none where it starts and ends at plain places.
fn loose_dots(odd: Odd, value: Value, token: &Token) -> u8
    ensures { result ≡ tokens.loose_dots odd value token.now }
{
    if is_plain(odd, token.start) && is_plain(odd, token.end) {
        0
    } else {
        value.dots
    }
}

/// The length of the first part of a value with dots: without them.
fn first_part(resolution: Units, value: Value) -> u64
    requires { 1 ≤ plain_grid value.recip }
    ensures part { result ≡ tokens.first_part resolution value }
    ensures few { result ≤ 245760 }
{
    width(Value { dots: 0, ..value }, whole_of(resolution))
}

/// Appends a token that was written as this value, cut where joined dots begin in one tuplet and end in another.
fn push_cut<'a>(
    list: &mut Vec<Token<'a>>,
    resolution: Units,
    odd: Odd,
    value: Value,
    token: Token<'a>,
) -> Result<(), AllocError>
    requires value { IsNoteValue value }
    requires start { token.start < 2 ^ 32 }
    ensures { OnOk result (list.new.items ≡ list.old.items ++ cut_parts resolution odd value token.entry) }
{
    let dots = loose_dots(odd, value, &token);
    let mut part = first_part(resolution, value);
    let mut place = token.start;
    let mut rest = token;
    'parts: for _dot in 0..dots {
        place += part;
        part /= 2;
        if is_plain(odd, place) {
            let after = rest.after(place);
            list.push(rest.until(place, true))?;
            rest = after;
        }
    }
    Ok(list.push(rest)?)
}

/// Whether the next of the values goes on, of which these are left in the bar.
fn next_goes_on(after: bool, values: &[VoiceValue]) -> bool
    ensures { result ≡ next_in_column after values.now }
{
    match values {
        [] => after,
        [next, ..] => next.goes_on(),
    }
}

/// The tokens of the values of a bar, after which one follows in the next bar that goes on, or none that does.
pub(crate) fn bar_tokens<'a>(
    alloc: Global,
    resolution: Units,
    odd: Odd,
    bar: &ScoreBar,
    after: bool,
    values: &[VoiceValue<'a>],
) -> Result<Vec<Token<'a>>, AllocError>
    requires bar { IsScoreBar bar.now }
    requires values { All (IsInBar resolution bar.now) values.now }
    ensures { IfOk result (λ v. v.items ≡ tokens.bar_tokens resolution odd bar.now after values.now) }
{
    let _units = resolution.count();
    let mut list = Vec::with_capacity(alloc, values.len())?;
    let mut later = values;
    'values: while let [value, more @ ..] = later {
        let goes = next_goes_on(after, more);
        let token = value_token(resolution, bar, goes, value);
        push_cut(&mut list, resolution, odd, value.value, token)?;
        later = more;
    }
    Ok(list)
}
