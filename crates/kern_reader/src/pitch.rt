ghost use Rattle.kern_reader.specs.Tokens as definitions;
ghost use Rattle.kern_reader.specs.Tokens.{octave_key, octave_of, pitch_key};
ghost use Rattle.std.specs.List.{prefix_len};
ghost use Rattle.std.specs.Prelude.{◌≡◌, ◌<◌, ◌≤◌, ◌+◌, ◌==◌, IfSome, length, position};

use score_words::is_black;

/// The white keys of an octave by their letters.
const WHITE: [u8; 12] = *b"c.d.ef.g.a.b";

/// The octave of a letter and so many more like it.
fn octave(letter: u8, more: usize) -> Option<u8>
    ensures octave { result ≡ octave_of letter (more + 1) }
    ensures few { IfSome result (λ n. n ≤ 10) }
{
    if matches!(letter, b'a'..=b'g') && more <= 5 {
        Some(more as u8 + 5)
    } else if matches!(letter, b'A'..=b'G') && more <= 4 {
        Some(4 - more as u8)
    } else {
        None
    }
}

/// The letter in lower case.
fn lower(letter: u8) -> u8
    ensures { result ≡ definitions.lower_letter letter }
{
    if matches!(letter, b'A'..=b'G') {
        letter + 32
    } else {
        letter
    }
}

/// The place of the first byte of this kind.
fn place_of(text: &[u8], byte: u8) -> Option<usize>
    ensures place { result ≡ position (λ b. b == byte) text.now }
    ensures within { IfSome result (λ n. n < length text.now) }
{
    text.iter().position(|other| *other == byte)
}

#[tactic(auto, unfolding(crate::specs::Tokens::white_key))]
/// The white key of a letter in its octave.
fn white_key(letter: u8) -> Option<u8>
    ensures key { result ≡ definitions.white_key letter }
    ensures few { IfSome result (λ n. n < 12) }
{
    match place_of(&WHITE, lower(letter)) {
        Some(key) => Some(key as u8),
        None => None,
    }
}

/// The key of a letter with an accidental in its octave.
fn altered_key(accidental: &[u8], letter: u8) -> Option<u8>
    ensures key { result ≡ octave_key letter accidental.now }
    ensures few { IfSome result (λ n. n < 12) }
{
    let white = white_key(letter)?;
    if accidental == b"".as_slice() {
        Some(white)
    } else if accidental == b"#".as_slice() && is_black(white + 1) {
        Some(white + 1)
    } else if accidental == b"-".as_slice() && is_black(white.saturating_sub(1)) {
        Some(white.saturating_sub(1))
    } else {
        None
    }
}

#[tactic(auto, using(crate::proofs::Runs::prefix_within))]
/// How many of this letter the text begins with.
fn letters_len(text: &[u8], letter: u8) -> usize
    ensures count { result ≡ prefix_len (λ b. b == letter) text.now }
    ensures within { result ≤ length text.now }
{
    text.iter().take_while(|byte| **byte == letter).count()
}

/// The key of a letter and so many more like it, with an accidental.
fn key_of_letters(letter: u8, more: usize, accidental: &[u8]) -> Option<u8>
    ensures key { result ≡ definitions.key_of_letters letter (more + 1) accidental.now }
    ensures few { IfSome result (λ n. n < 128) }
{
    let octave = octave(letter, more)?;
    let key = altered_key(accidental, letter)?;
    let key = 12 * octave + key;
    (key < 128).then_some(key)
}

#[tactic(auto, unfolding(crate::specs::Tokens::pitch_key))]
/// The key of a pitch.
pub(crate) fn key(text: &[u8]) -> Option<u8>
    ensures key { result ≡ pitch_key text.now }
    ensures few { IfSome result (λ n. n < 128) }
{
    match text {
        [] => None,
        [letter, rest @ ..] => {
            let more = letters_len(rest, *letter);
            let (_letters, accidental) = rest.split_at(more);
            key_of_letters(*letter, more, accidental)
        }
    }
}
