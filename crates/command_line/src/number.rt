ghost use Rattle.command_line.specs.Numbers.{after_hyphen, fraction_in, fraction_of, key_in, keyboard_in, keyboard_of, number_in, workers_of};
ghost use Rattle.std.specs.Char.{is_ascii_digit};
ghost use Rattle.std.specs.List.{list_all};
ghost use Rattle.std.specs.Prelude.{◌≡◌, option_map};

use performance_prepare::Fraction;

/// Whether the word has no other byte than digits.
fn is_all_digits(word: &[u8]) -> bool
    ensures { result ≡ list_all is_ascii_digit word.now }
{
    word.iter().all(|byte| byte.is_ascii_digit())
}

/// The number that the word says in one to ten decimal digits, where it lies in the range. Leading zeros are read.
pub fn number_in(word: &str, least: u64, most: u64) -> Option<u64>
    ensures { result ≡ number_in least most word.now }
{
    if word.is_empty() || word.len() > 10 || !is_all_digits(word.as_bytes()) {
        return None;
    }
    let value = word.parse::<u64>().ok()?;
    (least <= value && value <= most).then_some(value)
}

/// The number of workers by the word of the option, if there is one.
pub(crate) fn workers_in(option: Option<&str>) -> Option<u32>
    ensures { result ≡ workers_of (option_map (λ s. s.now) option.entry) }
{
    match option {
        Some(word) => Some(number_in(word, 1, 16)? as u32),
        None => Some(1),
    }
}

/// The fraction of two numbers, where the second is a power of two.
fn fraction_of(num: u8, den: u8) -> Option<Fraction>
    ensures { result ≡ fraction_of num den }
{
    if matches!(den, 1 | 2 | 4 | 8 | 16 | 32 | 64) {
        Some(Fraction { num, den })
    } else {
        None
    }
}

/// The fraction that the word says: a number up to 64, a slash, and a power of two up to 64.
pub(crate) fn fraction_in(word: &str, least: u64) -> Option<Fraction>
    ensures { result ≡ fraction_in least word.now }
{
    let (num, den) = word.split_once('/')?;
    let num = number_in(num, least, 64)? as u8;
    let den = number_in(den, 1, 64)? as u8;
    fraction_of(num, den)
}

/// What stands after a hyphen.
fn after_hyphen(word: &str) -> Option<&str>
    ensures { option_map (λ s. s.now) result ≡ after_hyphen word.now }
{
    let (before, after) = word.split_once('-')?;
    before.is_empty().then_some(after)
}

/// The signature that the word says: so many sharps, or so many flats after a hyphen, 0 to 7.
pub(crate) fn key_in(word: &str) -> Option<i8>
    ensures { result ≡ key_in word.now }
{
    match after_hyphen(word) {
        None => Some(number_in(word, 0, 7)? as i8),
        Some(flats) => Some(-(number_in(flats, 0, 7)? as i8)),
    }
}

/// The channel, where it is not that of drums.
fn keyboard_of(channel: u8) -> Option<u8>
    ensures { result ≡ keyboard_of channel }
{
    if channel == 9 { None } else { Some(channel) }
}

/// The channel that the word says, 0 to 15 but 9.
pub(crate) fn keyboard_in(word: &str) -> Option<u8>
    ensures { result ≡ keyboard_in word.now }
{
    keyboard_of(number_in(word, 0, 15)? as u8)
}
