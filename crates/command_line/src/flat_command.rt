ghost use Rattle.clap.specs.Words.{FailsBy, HasMatchesOf, app_of, fault_of, found_of, kind_of, rows_of, rule_of, with_rule};
ghost use Rattle.command_line.specs.CommandLines.{line_matches, texts, words_fault};
ghost use Rattle.command_line.specs.FlatCommand.{app_of_rules, flag_rule, line_app, option_rule, value_rule, words_rule};
ghost use Rattle.command_line.specs.OptionTable.{shown_row};
ghost use Rattle.command_line.specs.declared.invocation.WordsFault.TheVariants.{Refused};
ghost use Rattle.std.specs.Prelude.{◌≡◌, [], IfErr, IfOk, None, Some, false};

use crate::invocation::WordsFault;
use crate::option_table::{OptionRow, options};
use clap::error::ErrorKind;
use clap::{Arg, ArgAction, ArgMatches, Command, Error};
use std::alloc::{AllocError, Global};

/// An option that takes one word.
fn value_option<'a>(alloc: Global, name: &'a str) -> Arg<'a>
    ensures rule { rule_of result ≡ value_rule name.entry.now }
    ensures local { result.global ≡ false }
{
    Arg::new(alloc, name).long(name).action(ArgAction::Set)
}

/// An option that takes no word.
fn flag<'a>(alloc: Global, name: &'a str) -> Arg<'a>
    ensures rule { rule_of result ≡ flag_rule name.entry.now }
    ensures local { result.global ≡ false }
{
    Arg::new(alloc, name).long(name).action(ArgAction::SetTrue)
}

/// An option of the table.
fn option_arg<'a>(alloc: Global, row: &OptionRow) -> Arg<'a>
    ensures rule { rule_of result ≡ option_rule (shown_row row.now) }
    ensures local { result.global ≡ false }
{
    match row.word {
        Some(_wanted) => value_option(alloc, row.name),
        None => flag(alloc, row.name),
    }
}

/// The positional, which takes all other words.
fn positional<'a>(alloc: Global) -> Arg<'a>
    ensures rule { rule_of result ≡ words_rule }
    ensures local { result.global ≡ false }
{
    Arg::new(alloc, "words").action(ArgAction::Append)
}

/// The command without options and positional.
fn plain_command<'a>(alloc: Global) -> Command<'a>
    ensures { app_of result ≡ app_of_rules [] }
{
    Command::new(alloc, "rhythm")
        .no_binary_name(true)
        .disable_help_flag(true)
}

/// The command with one more option or positional.
fn with_arg<'a>(command: Command<'a>, arg: Arg<'a>) -> Result<Command<'a>, AllocError>
    requires { arg.global ≡ false }
    ensures { IfOk result (λ c. app_of c ≡ with_rule (app_of command.entry) (rule_of arg.entry)) }
{
    command.arg(arg)
}

/// The one flat command: the options, and the positional.
fn line_command<'a>(alloc: Global) -> Result<Command<'a>, AllocError>
    ensures { IfOk result (λ c. app_of c ≡ line_app) }
{
    let mut command = plain_command(alloc);
    for row in options() {
        command = with_arg(command, option_arg(alloc, row))?;
    }
    with_arg(command, positional(alloc))
}

/// What `clap` makes of the words, by the one flat command.
fn parsed<'a>(alloc: Global, words: &'a [&'a str]) -> Result<ArgMatches<'a>, Error>
    ensures ok { IfOk result (λ m. HasMatchesOf line_app (texts words.entry.now) m) }
    ensures kinds { FailsBy (fault_of line_app (texts words.entry.now)) result }
{
    let command = line_command(alloc)?;
    command.try_get_matches_from(words)
}

/// Whether `clap` refuses the words, or there was not enough memory.
fn words_fault(error: &Error) -> WordsFault
    ensures { result ≡ words_fault (kind_of error.now) }
{
    match error.kind() {
        ErrorKind::OutOfMemory => WordsFault::Memory,
        _ => WordsFault::Refused,
    }
}

/// The matches of the words, where `clap` does not refuse them.
pub(crate) fn taken_matches<'a>(
    alloc: Global,
    words: &'a [&'a str],
) -> Result<ArgMatches<'a>, WordsFault>
    ensures ok { IfOk result (λ m. line_matches (texts words.entry.now) ≡ Some (rows_of (found_of m))) }
    ensures refused { IfErr result (λ fault. fault ≡ Refused → line_matches (texts words.entry.now) ≡ None) }
{
    match parsed(alloc, words) {
        Ok(matches) => Ok(matches),
        Err(error) => Err(words_fault(&error)),
    }
}

/// What `clap` says of words that it refuses, in one line without the name of a level; nothing of words that it takes.
pub(crate) fn refusal_of(alloc: Global, words: &[&str]) -> Result<Option<String>, AllocError> {
    let Err(error) = parsed(alloc, words) else {
        return Ok(None);
    };
    let text = format!(in alloc; "{error}")?;
    let line = text.as_str().lines().next().unwrap_or("");
    let said = line.strip_prefix("error: ").unwrap_or(line);
    Ok(Some(String::from_str(alloc, said)?))
}
