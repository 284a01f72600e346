ghost use Rattle.derivation.specs.Score.{IsKeySignature, IsScoreBar};
ghost use Rattle.score_words.specs.LilyChanges as definitions;
ghost use Rattle.score_words.specs.LilyChanges.{lily_changes, lily_key_lines, lily_key, key_names, lily_tempo_lines, lily_tempo, time_change, time_line};
ghost use Rattle.score_words.specs.TextLines.{lines_text};
ghost use Rattle.std.specs.Prelude.{◌≡◌, ◌∷◌, ◌<◌, ◌++◌, [], IfSome, OnOk, slice_index_or};

use crate::changes::{
    is_same_key, is_same_signature, is_same_tempo, key_before, quarters_of_minute,
};
use crate::decimals::push_number;
use derivation::ScoreBar;
use std::alloc::AllocError;

/// The letters of the major keys from seven flats to seven sharps, each a fifth above the one before.
const KEY_LETTERS: [u8; 15] = *b"cgdaebfcgdaebfc";

/// The number of a key signature among those from seven flats to seven sharps.
fn key_number(sf: i8) -> u8
    requires { IsKeySignature sf }
    ensures number { result ≡ definitions.key_number sf }
    ensures few { result < 15 }
{
    let count = sf.unsigned_abs();
    if sf < 0 { 7 - count } else { 7 + count }
}

/// Appends the name of the major key of this number.
fn push_key_name(text: &mut Vec<u8>, number: u8) -> Result<(), AllocError>
    requires { number < 15 }
    ensures { OnOk result (text.new.items ≡ text.old.items ++ slice_index_or key_names number []) }
{
    text.push(KEY_LETTERS[usize::from(number)])?;
    if number < 6 {
        text.extend_from_slice(b"es")?;
    } else if number > 12 {
        text.extend_from_slice(b"is")?;
    }
    Ok(())
}

/// Writes the line of a key.
fn write_key_line(text: &mut Vec<u8>, sf: i8) -> Result<(), AllocError>
    requires { IsKeySignature sf }
    ensures { OnOk result (text.new.items ≡ text.old.items ++ lines_text (lily_key sf ∷ [])) }
{
    text.extend_from_slice(b"\\key ")?;
    push_key_name(text, key_number(sf))?;
    text.extend_from_slice(b" \\major\n")
}

/// Writes the key of a bar, where it has one and it is not the one before.
fn write_key(text: &mut Vec<u8>, before: Option<i8>, key: Option<i8>) -> Result<(), AllocError>
    requires { IfSome key IsKeySignature }
    ensures { OnOk result (text.new.items ≡ text.old.items ++ lines_text (lily_key_lines before key)) }
{
    match key {
        Some(sf) if !is_same_key(before, sf) => write_key_line(text, sf),
        _ => Ok(()),
    }
}

/// Writes the signature of a bar, where it is not the one before.
fn write_time(
    text: &mut Vec<u8>,
    before: Option<ScoreBar>,
    bar: &ScoreBar,
) -> Result<(), AllocError>
    ensures { OnOk result (text.new.items ≡ text.old.items ++ lines_text (time_change before bar.now)) }
{
    if is_same_signature(before, bar) {
        return Ok(());
    }
    text.extend_from_slice(b"\\time ")?;
    push_number(text, u64::from(bar.num))?;
    text.push(b'/')?;
    push_number(text, u64::from(bar.den))?;
    text.push(b'\n')?;
    Ok(())
}

/// Writes the tempo of a bar, where it is not the one before.
fn write_tempo(
    text: &mut Vec<u8>,
    before: Option<ScoreBar>,
    bar: &ScoreBar,
) -> Result<(), AllocError>
    requires before { IfSome before IsScoreBar }
    requires bar { IsScoreBar bar.now }
    ensures { OnOk result (text.new.items ≡ text.old.items ++ lines_text (lily_tempo_lines before bar.now)) }
{
    if is_same_tempo(before, bar) {
        return Ok(());
    }
    text.extend_from_slice(b"\\tempo 4 = ")?;
    push_number(text, quarters_of_minute(bar))?;
    text.push(b'\n')?;
    Ok(())
}

/// Writes the lines of LilyPond that say what changes at a bar: its key, its signature and, in the first staff, its tempo.
pub fn write_lily_changes(
    text: &mut Vec<u8>,
    first: bool,
    before: Option<ScoreBar>,
    bar: &ScoreBar,
) -> Result<(), AllocError>
    requires before { IfSome before IsScoreBar }
    requires bar { IsScoreBar bar.now }
    ensures { OnOk result (text.new.items ≡ text.old.items ++ lines_text (lily_changes first before bar.now)) }
{
    write_key(text, key_before(before), bar.sf)?;
    write_time(text, before, bar)?;
    if first {
        write_tempo(text, before, bar)?;
    }
    Ok(())
}
