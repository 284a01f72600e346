ghost use Rattle.clap.specs.Words.{found_of, rows_of};
ghost use Rattle.command_line.specs.CommandLines.{HasOptions, command_line_of, invocation_of, line_in, listed, texts, words_given};
ghost use Rattle.command_line.specs.declared.invocation.WordsFault.TheVariants.{Refused};
ghost use Rattle.std.specs.Prelude.{◌≡◌, IfErr, IfOk, None, Some, is_none, is_some, option_map};

use crate::flat_command::{refusal_of, taken_matches};
use crate::invocation::{CommandLine, Invocation, WordsFault};
use crate::preparing::{numbers_in, range_refusal, word_of};
use crate::requests::asks_by;
use clap::ArgMatches;
use rhythm_base::{Words, Workers};
use std::alloc::{AllocError, Global};

/// The words as a list of texts.
fn texts_of<'a>(alloc: Global, words: &'a Words) -> Result<Vec<&'a str>, AllocError>
    ensures { IfOk result (λ list. texts list.items ≡ words.entry.now) }
{
    let mut list = Vec::new(alloc);
    for at in 0..words.count() {
        if let Some(word) = words.get(at) {
            list.push(word)?;
        }
    }
    Ok(list)
}

/// A list of texts as words.
fn words_of(alloc: Global, list: &[&str]) -> Result<Words, AllocError>
    ensures { IfOk result (λ words. words ≡ texts list.now) }
{
    let mut words = Words::new(alloc);
    for word in list {
        words.push(word)?;
    }
    Ok(words)
}

/// The words of the positional.
fn given_words(alloc: Global, matches: &ArgMatches<'_>) -> Result<Words, AllocError>
    ensures { IfOk result (λ words. words ≡ words_given (rows_of (found_of matches.now))) }
{
    match matches.get_strs("words") {
        Some(list) => words_of(alloc, list),
        None => Ok(Words::new(alloc)),
    }
}

/// The word of an option as words: no word, or one.
fn listed(alloc: Global, said: Option<&str>) -> Result<Words, AllocError>
    ensures { IfOk result (λ words. words ≡ listed (option_map (λ s. s.now) said.entry)) }
{
    let mut words = Words::new(alloc);
    if let Some(word) = said {
        words.push(word)?;
    }
    Ok(words)
}

/// The command line that the matches say.
fn line_in(alloc: Global, matches: &ArgMatches<'_>) -> Result<CommandLine, WordsFault>
    ensures ok { IfOk result (λ line. line_in matches.now ≡ Some line) }
    ensures refused { IfErr result (λ fault. fault ≡ Refused → line_in matches.now ≡ None) }
{
    let (workers, options) = numbers_in(matches)?;
    let script = listed(alloc, word_of(matches, "script"))?;
    let words = given_words(alloc, matches)?;
    Ok(CommandLine {
        workers: Workers::of(workers),
        options,
        script,
        words,
    })
}

/// The command line that the words are.
fn command_line(alloc: Global, list: &[&str]) -> Result<CommandLine, WordsFault>
    ensures ok { IfOk result (λ line. command_line_of (texts list.now) ≡ Some line) }
    ensures refused { IfErr result (λ fault. fault ≡ Refused → command_line_of (texts list.now) ≡ None) }
{
    let matches = match taken_matches(alloc, list) {
        Ok(matches) => matches,
        Err(fault) => return Err(fault),
    };
    line_in(alloc, &matches)
}

/// What the words of a command line say.
///
/// They are refused exactly where `clap` refuses them, or where the word of an option is out of its range. Words that ask
/// for help or for the version are not refused, whatever else they are.
pub fn read_words(alloc: Global, words: &Words) -> Result<Invocation, WordsFault>
    ensures ok { IfOk result (λ said. invocation_of words.now ≡ Some said) }
    ensures refused { IfErr result (λ fault. fault ≡ Refused → invocation_of words.now ≡ None) }
    ensures options { IfOk result HasOptions }
{
    let list = texts_of(alloc, words)?;
    if asks_by(list.as_slice(), "--help", b'h') {
        return Ok(Invocation::Help);
    }
    if asks_by(list.as_slice(), "--version", b'V') {
        return Ok(Invocation::Version);
    }
    let line = command_line(alloc, list.as_slice())?;
    Ok(Invocation::Command(line))
}

/// What is wrong with a list of words that is refused, in one line.
fn refusal(alloc: Global, list: &[&str]) -> Result<String, AllocError> {
    if let Some(said) = refusal_of(alloc, list)? {
        return Ok(said);
    }
    match taken_matches(alloc, list) {
        Ok(matches) => range_refusal(alloc, &matches),
        Err(_fault) => Err(AllocError),
    }
}

/// What is wrong with words that are refused, in one line: in the words of `clap` where it refuses them, and else which option is out
/// of range. Nothing of words that are not refused.
pub fn words_refusal(alloc: Global, words: &Words) -> Result<Option<String>, AllocError>
    ensures { IfOk result (λ said. is_some said ≡ is_none (invocation_of words.now)) }
{
    match read_words(alloc, words) {
        Ok(_said) => Ok(None),
        Err(WordsFault::Memory) => Err(AllocError),
        Err(WordsFault::Refused) => {
            let list = texts_of(alloc, words)?;
            Ok(Some(refusal(alloc, list.as_slice())?))
        }
    }
}
