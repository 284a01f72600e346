ghost use Rattle.command_line.specs.CommandLines.{line_in};
ghost use Rattle.command_line.specs.Numbers as numbers;
ghost use Rattle.command_line.specs.Numbers.{workers_of};
ghost use Rattle.command_line.specs.Preparing.{is_given, options_of, said_by, told};
ghost use Rattle.command_line.specs.declared.invocation.WordsFault.TheVariants.{Refused};
ghost use Rattle.std.specs.Prelude.{◌≡◌, IfErr, IfOk, None, Some, codes, option_map};
ghost use Rattle.std.specs.Result.{result_ok};

use crate::invocation::WordsFault;
use crate::number::{fraction_in, key_in, keyboard_in, number_in, workers_in};
use crate::option_table::options;
use clap::ArgMatches;
use performance_prepare::{Fraction, Options};
use std::alloc::{AllocError, Global};

/// The word of an option says nothing.
#[derive(Clone, Copy)]
pub(crate) struct OutOfRange {
    /// The name of the option.
    pub(crate) name: &'static str,
}

impl From<OutOfRange> for WordsFault {
    ghost from_gives = { λ _ e. e ≡ Refused };

    fn from(_fault: OutOfRange) -> WordsFault {
        WordsFault::Refused
    }
}

/// The word of an option, if it is given.
pub(crate) fn word_of<'a>(matches: &ArgMatches<'a>, name: &str) -> Option<&'a str>
    ensures { option_map (λ s. s.now) result ≡ said_by matches.now name.now }
{
    matches.get_str(name)
}

/// Whether an option without a word is given.
fn is_given(matches: &ArgMatches<'_>, name: &str) -> bool
    ensures { result ≡ is_given (said_by matches.now name.now) }
{
    match word_of(matches, name) {
        None => false,
        Some(word) => word == "true",
    }
}

/// A number of at most a byte.
fn byte_told(
    matches: &ArgMatches<'_>,
    name: &'static str,
    least: u8,
    most: u8,
) -> Result<Option<u8>, OutOfRange>
    ensures { result_ok result ≡ told (numbers.number_in least most) (said_by matches.now name.now) }
{
    match word_of(matches, name) {
        None => Ok(None),
        Some(word) => Ok(Some(
            number_in(word, least as u64, most as u64).ok_or(OutOfRange { name })? as u8,
        )),
    }
}

/// A number of at most two bytes.
fn number_told(
    matches: &ArgMatches<'_>,
    name: &'static str,
    least: u16,
    most: u16,
) -> Result<Option<u16>, OutOfRange>
    ensures { result_ok result ≡ told (numbers.number_in least most) (said_by matches.now name.now) }
{
    match word_of(matches, name) {
        None => Ok(None),
        Some(word) => Ok(Some(
            number_in(word, least as u64, most as u64).ok_or(OutOfRange { name })? as u16,
        )),
    }
}

/// A channel but that of drums.
fn keyboard_told(matches: &ArgMatches<'_>, name: &'static str) -> Result<Option<u8>, OutOfRange>
    ensures { result_ok result ≡ told numbers.keyboard_in (said_by matches.now name.now) }
{
    match word_of(matches, name) {
        None => Ok(None),
        Some(word) => Ok(Some(keyboard_in(word).ok_or(OutOfRange { name })?)),
    }
}

/// A fraction of a whole note, of at least so many beats.
fn fraction_told(
    matches: &ArgMatches<'_>,
    name: &'static str,
    least: u64,
) -> Result<Option<Fraction>, OutOfRange>
    ensures { result_ok result ≡ told (numbers.fraction_in least) (said_by matches.now name.now) }
{
    match word_of(matches, name) {
        None => Ok(None),
        Some(word) => Ok(Some(fraction_in(word, least).ok_or(OutOfRange { name })?)),
    }
}

/// A signature.
fn key_told(matches: &ArgMatches<'_>, name: &'static str) -> Result<Option<i8>, OutOfRange>
    ensures { result_ok result ≡ told numbers.key_in (said_by matches.now name.now) }
{
    match word_of(matches, name) {
        None => Ok(None),
        Some(word) => Ok(Some(key_in(word).ok_or(OutOfRange { name })?)),
    }
}

/// What the options tell of a take, where each that is given says something, and else the first that says nothing.
pub(crate) fn options_in(matches: &ArgMatches<'_>) -> Result<Options, OutOfRange>
    ensures { result_ok result ≡ options_of (said_by matches.now) }
{
    Ok(Options {
        no_drums: is_given(matches, "no-drums"),
        split: byte_told(matches, "split", 1, 127)?,
        hands: keyboard_told(matches, "hands")?,
        strum: byte_told(matches, "strum", 1, 100)?,
        meter: fraction_told(matches, "meter", 1)?,
        tempo: number_told(matches, "tempo", 1, 1000)?,
        upbeat: fraction_told(matches, "upbeat", 0)?,
        key: key_told(matches, "key")?,
    })
}

/// The number of workers, and what the options tell of a take.
pub(crate) fn numbers_in(matches: &ArgMatches<'_>) -> Result<(u32, Options), OutOfRange>
    ensures workers { IfOk result (λ said. workers_of (said_by matches.now (codes "workers")) ≡ Some said.0) }
    ensures options { IfOk result (λ said. options_of (said_by matches.now) ≡ Some said.1) }
    ensures refused { IfErr result (λ _. line_in matches.now ≡ None) }
{
    let workers = workers_in(word_of(matches, "workers")).ok_or(OutOfRange { name: "workers" })?;
    let options = options_in(matches)?;
    Ok((workers, options))
}

/// What the word of the option must be.
fn word_wanted(name: &str) -> &'static str {
    options()
        .iter()
        .find(|row| row.name == name)
        .and_then(|row| row.word)
        .unwrap_or("another word")
}

/// What is wrong with the words of the options, where one of them says nothing, in one line.
pub(crate) fn range_refusal(alloc: Global, matches: &ArgMatches<'_>) -> Result<String, AllocError> {
    match numbers_in(matches) {
        Err(OutOfRange { name }) => format!(in alloc; "--{name} takes {}", word_wanted(name)),
        Ok(_said) => Err(AllocError),
    }
}
