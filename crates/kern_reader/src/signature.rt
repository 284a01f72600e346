ghost use Rattle.kern_reader.specs.Lines.{signature_from, signature_of};
ghost use Rattle.text_words.specs.TimeSignatures.{signature_of_numbers};
ghost use Rattle.kern_reader.specs.Tokens.{IsWellSignature};
ghost use Rattle.rhythm_base.specs.Signatures.{is_den};
ghost use Rattle.std.specs.Prelude.{◌≡◌, ◌≤◌, ◌∷◌, [], IfSome, length, option_map};

use crate::number::number;
use crate::piece::first_piece;
use text_words::TimeSignature;

/// Whether a beat can have this value.
fn is_den(den: u32) -> bool
    ensures { result ≡ is_den den }
{
    matches!(den, 1 | 2 | 4 | 8 | 16 | 32 | 64)
}

/// The signature of the texts of two numbers.
fn signature_of_texts(first: &[u8], second: &[u8]) -> Option<TimeSignature>
    ensures signature { result ≡ signature_of_numbers (first.now ∷ second.now ∷ []) }
    ensures well { IfSome result IsWellSignature }
{
    let num = number(first, 64)?;
    let den = number(second, 64)?;
    if is_den(den) {
        Some(TimeSignature {
            num: num as u8,
            den: den as u8,
        })
    } else {
        None
    }
}

/// The signature of the first text and what is left after it.
fn signature_of_rest(first: &[u8], rest: Option<&[u8]>) -> Option<TimeSignature>
    ensures signature { result ≡ signature_from first.now (option_map (λ x. x.now) rest.entry) }
    ensures well { IfSome result IsWellSignature }
{
    match rest {
        None => None,
        Some(text) => {
            let (second, more) = first_piece(text, b'/');
            match more {
                None => signature_of_texts(first, second),
                Some(_text) => None,
            }
        }
    }
}

/// The signature that a word says after its first two bytes.
pub(crate) fn signature(word: &[u8]) -> Option<TimeSignature>
    requires { 2 ≤ length word.now }
    ensures signature { result ≡ signature_of word.now }
    ensures well { IfSome result IsWellSignature }
{
    let (_sign, text) = word.split_at(2);
    let (first, rest) = first_piece(text, b'/');
    signature_of_rest(first, rest)
}
