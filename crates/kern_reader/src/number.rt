ghost use Rattle.text_words.specs.Numbers.{is_plain, number_of};
ghost use Rattle.std.specs.Char.{is_ascii_digit};
ghost use Rattle.std.specs.List.{list_all};
ghost use Rattle.std.specs.Prelude.{◌<◌, ◌≡◌, ◌≤◌, IfSome, min, true};
ghost use Rattle.std.specs.Str.Parse.{digits_value};

/// Whether the text has no other byte than digits.
pub(crate) fn are_digits(text: &[u8]) -> bool
    ensures { result ≡ list_all is_ascii_digit text.now }
{
    text.iter().all(|byte| byte.is_ascii_digit())
}

/// Whether the text is digits, the first of which is not 0.
fn is_plain(text: &[u8]) -> bool
    ensures { result ≡ is_plain text.now }
{
    match text {
        [] => false,
        [first, rest @ ..] => matches!(*first, b'1'..=b'9') && are_digits(rest),
    }
}

/// The number that the digits write, or the greatest of the type where that is too great for it.
fn digits_number(digits: &[u8]) -> u32
    requires { list_all is_ascii_digit digits.now ≡ true }
    ensures { result ≡ min (digits_value 10 digits.now) 4294967295 }
{
    let mut value: u32 = 0;
    'digits: for digit in digits {
        value = value
            .saturating_mul(10)
            .saturating_add(u32::from(digit - b'0'));
    }
    value
}

#[tactic(auto, using(text_words::proofs::NumberLemmas::number_read, text_words::proofs::NumberLemmas::number_past, text_words::proofs::NumberLemmas::number_odd, text_words::proofs::NumberLemmas::plain_some, text_words::proofs::NumberLemmas::plain_digits))]
/// The number from 1 to a greatest one that a text says.
pub(crate) fn number(text: &[u8], most: u16) -> Option<u32>
    ensures number { result ≡ number_of most text.now }
    ensures some { IfSome result (λ n. 1 ≤ n) }
    ensures few { IfSome result (λ n. n ≤ most) }
{
    if !is_plain(text) {
        return None;
    }
    let value = digits_number(text);
    if value <= u32::from(most) {
        Some(value)
    } else {
        None
    }
}
