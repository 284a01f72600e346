ghost use Rattle.durations.specs.Value.{plain_grid};
ghost use Rattle.kern_reader.specs.Tokens.{recip_of, value_of};
ghost use Rattle.std.specs.Char.{is_ascii_digit};
ghost use Rattle.std.specs.List.{prefix_len};
ghost use Rattle.std.specs.Prelude.{◌≡◌, ◌≤◌, IfSome, length};
ghost use Rattle.text_words.specs.Marks as marks;
ghost use Rattle.text_words.specs.Values.{IsWellValue};

use crate::number::number;
use durations::{MOST_GRID, Recip, Value};

#[tactic(auto, using(crate::proofs::Runs::prefix_within))]
/// How many digits the text begins with.
fn digits_len(text: &[u8]) -> usize
    ensures count { result ≡ prefix_len is_ascii_digit text.now }
    ensures within { result ≤ length text.now }
{
    text.iter().take_while(|byte| byte.is_ascii_digit()).count()
}

/// Whether the text is at most two dots.
fn are_dots(text: &[u8]) -> bool
    ensures { result ≡ marks.are_dots text.now }
{
    text.iter().all(|byte| *byte == b'.') && text.len() <= 2
}

#[tactic(auto, unfolding(crate::specs::Tokens::recip_of))]
/// The value without dots that a text says.
fn recip(text: &[u8]) -> Option<Recip>
    ensures recip { result ≡ recip_of text.now }
    ensures some { IfSome result (λ r. 1 ≤ plain_grid r) }
    ensures few { IfSome result (λ r. plain_grid r ≤ 61440) }
{
    if text == b"0".as_slice() {
        Some(Recip::Breve)
    } else if text == b"00".as_slice() {
        Some(Recip::Long)
    } else {
        match number(text, MOST_GRID as u16) {
            Some(number) => Some(Recip::Of(number)),
            None => None,
        }
    }
}

#[tactic(auto, unfolding(crate::specs::Tokens::value_of))]
/// The value that a text says.
pub(crate) fn value(text: &[u8]) -> Option<Value>
    ensures value { result ≡ value_of text.now }
    ensures well { IfSome result IsWellValue }
{
    let (digits, dots) = text.split_at(digits_len(text));
    if !are_dots(dots) {
        return None;
    }
    match recip(digits) {
        Some(recip) => Some(Value {
            recip,
            dots: dots.len() as u8,
        }),
        None => None,
    }
}
