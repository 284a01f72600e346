ghost use Rattle.edit_script.specs.Finds.{Finds};
ghost use Rattle.rhythm_base.specs.Numerals.{IsNumber};
ghost use Rattle.std.specs.Char.{is_ascii_digit};
ghost use Rattle.std.specs.List.{list_all};
ghost use Rattle.std.specs.Prelude.{◌≡◌};

/// Whether the word has no other byte than digits.
fn is_all_digits(word: &[u8]) -> bool
    ensures { result ≡ list_all is_ascii_digit word.now }
{
    word.iter().all(|byte| byte.is_ascii_digit())
}

/// The number that a word is, up to a greatest one.
pub(crate) fn number(word: &[u8], most: u32) -> Option<u32>
    ensures { Finds (λ n. IsNumber most n word.now) result }
{
    if word.is_empty() || word.len() > 10 || !is_all_digits(word) {
        return None;
    }
    let digits = std::str::from_utf8(word).ok()?;
    let value = digits.parse::<u32>().ok()?;
    (value <= most).then_some(value)
}
