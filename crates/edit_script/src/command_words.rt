ghost use Rattle.edit_script.specs.After.{SaysAlone, SaysAfter};
ghost use Rattle.edit_script.specs.Finds.{Finds};
ghost use Rattle.edit_script.specs.declared.keyword.Keyword.TheVariants as keyword;

use crate::command::Command;
use crate::line_words::LineWords;
use rhythm_base::Edit;

/// The greatest channel of a line.
pub(crate) const LAST_CHANNEL: u32 = 15;
/// The greatest key of a line.
const LAST_KEY: u32 = 127;
/// The greatest bar of a line.
pub(crate) const LAST_BAR: u32 = 4_096;
/// The greatest tick of a line.
const LAST_TICK: u32 = 2_000_000_000;
/// The greatest number of alternatives that a line asks for.
const MOST_ALTERNATIVES: u32 = 16;

/// The command of the words after `add`.
pub(crate) fn add_note(words: &mut LineWords) -> Option<Command>
    ensures { Finds (SaysAfter keyword.Add words.old) result }
{
    let (channel, key, onset, end) = words.four(LAST_CHANNEL, LAST_KEY, LAST_TICK, LAST_TICK)?;
    Some(Command::Change(Edit::Add {
        channel: channel as u8,
        key: key as u8,
        onset: u64::from(onset),
        end: u64::from(end),
    }))
}

/// The command of the words after `drop`.
pub(crate) fn drop_note(words: &mut LineWords) -> Option<Command>
    ensures { Finds (SaysAfter keyword.Drop words.old) result }
{
    let (channel, key, onset) = words.three(LAST_CHANNEL, LAST_KEY, LAST_TICK)?;
    Some(Command::Change(Edit::Drop {
        channel: channel as u8,
        key: key as u8,
        onset: u64::from(onset),
    }))
}

/// The command of the words after `move`.
pub(crate) fn move_note(words: &mut LineWords) -> Option<Command>
    ensures { Finds (SaysAfter keyword.Move words.old) result }
{
    let (channel, key, onset, to) = words.four(LAST_CHANNEL, LAST_KEY, LAST_TICK, LAST_TICK)?;
    Some(Command::Change(Edit::Move {
        channel: channel as u8,
        key: key as u8,
        onset: u64::from(onset),
        to: u64::from(to),
    }))
}

/// The command of the words after `barline`.
pub(crate) fn barline(words: &mut LineWords) -> Option<Command>
    ensures { Finds (SaysAfter keyword.Barline words.old) result }
{
    let (bar, tick) = words.two(LAST_BAR, LAST_TICK)?;
    Some(Command::Change(Edit::Barline {
        bar,
        tick: u64::from(tick),
    }))
}

/// The command of the words after `unpin`.
pub(crate) fn unpin(words: &mut LineWords) -> Option<Command>
    ensures { Finds (SaysAfter keyword.Unpin words.old) result }
{
    let (channel, bar) = words.two(LAST_CHANNEL, LAST_BAR)?;
    Some(Command::Change(Edit::Unpin {
        channel: channel as u8,
        bar,
    }))
}

/// The command of the words after `alt`.
pub(crate) fn alternatives(words: &mut LineWords) -> Option<Command>
    ensures { Finds (SaysAfter keyword.Alt words.old) result }
{
    let (channel, bar, count) = words.three(LAST_CHANNEL, LAST_BAR, MOST_ALTERNATIVES)?;
    if count == 0 {
        return None;
    }
    Some(Command::Alternatives {
        channel: channel as u8,
        bar,
        count,
    })
}

/// The command of a keyword after which no word stands.
pub(crate) fn alone(command: Command, words: &LineWords) -> Option<Command>
    ensures { Finds (SaysAlone command words.now) result }
{
    if words.is_done() { Some(command) } else { None }
}
