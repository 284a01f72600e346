ghost use Rattle.grammar_file.specs.Numbers.{beat_of, is_numeral, number_within};
ghost use Rattle.std.specs.Prelude.{◌≡◌, ◌≤◌, ◌-◌, ◌^◌, IfOk, IsTrue, min};
ghost use Rattle.std.specs.Str.Parse.{digits_value};

use crate::fault::GrammarWhat;

/// Whether the word is all digits.
pub(crate) fn is_numeral(word: &[u8]) -> bool
    ensures { result ≡ is_numeral word.now }
{
    !word.is_empty() && word.iter().all(|byte| byte.is_ascii_digit())
}

/// The number that the digits write, or the greatest of the type where that is too great for it.
fn value_of(digits: &[u8]) -> u64
    requires { IsTrue (is_numeral digits.now) }
    ensures { result ≡ min (digits_value 10 digits.now) (2 ^ 64 - 1) }
{
    let mut value: u64 = 0;
    for digit in digits {
        value = value
            .saturating_mul(10)
            .saturating_add(u64::from(digit - b'0'));
    }
    value
}

/// The number that the digits write, where it lies in the range.
pub(crate) fn number_within(digits: &[u8], low: u32, high: u32) -> Result<u32, GrammarWhat>
    requires { IsTrue (is_numeral digits.now) }
    ensures value { result ≡ number_within low high digits.now }
    ensures within { IfOk result (λ n. n ≤ high) }
{
    let value = value_of(digits);
    if u64::from(low) <= value && value <= u64::from(high) {
        Ok(value as u32)
    } else {
        Err(GrammarWhat::Number { limit: high })
    }
}

/// The value of a beat that the digits write: a power of two up to 64.
pub(crate) fn beat(digits: &[u8]) -> Result<u8, GrammarWhat>
    requires { IsTrue (is_numeral digits.now) }
    ensures { result ≡ beat_of digits.now }
{
    match value_of(digits) {
        value @ (1 | 2 | 4 | 8 | 16 | 32 | 64) => Ok(value as u8),
        _ => Err(GrammarWhat::Number { limit: 64 }),
    }
}
