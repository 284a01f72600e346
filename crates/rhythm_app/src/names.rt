ghost use Rattle.edit_script.specs.Replies.{fault_words, limit_word};
ghost use Rattle.rhythm_app.specs.Parts.{number_words};
ghost use Rattle.rhythm_app.specs.Stops.{kind_name, smf_name, smf_number, what_name, what_number};
ghost use Rattle.std.specs.Prelude.{◌≡◌, Some, drop, slice_get};

use crate::stop::Kind;
use grammar_file::GrammarWhat;
use rhythm_base::{EditFault, LimitKind};
use smf_reader::SmfFault;

/// The name of an input.
pub fn kind_name(kind: Kind) -> &'static str
    ensures { result.now ≡ kind_name kind }
{
    match kind {
        Kind::Midi => "midi",
        Kind::Grammar => "grammar",
        Kind::Kern => "kern",
        Kind::ScriptFile => "script-file",
        Kind::Script => "script",
    }
}

/// The name of a fault of a MIDI file.
pub fn smf_name(fault: SmfFault) -> &'static str
    ensures { result.now ≡ smf_name fault }
{
    match fault {
        SmfFault::NotSmf => "NotSmf",
        SmfFault::Format(_) => "Format",
        SmfFault::Smpte => "Smpte",
        SmfFault::ZeroDivision => "ZeroDivision",
        SmfFault::Truncated { .. } => "Truncated",
        SmfFault::BadQuantity { .. } => "BadQuantity",
        SmfFault::NoStatus { .. } => "NoStatus",
        SmfFault::BadStatus { .. } => "BadStatus",
        SmfFault::BadData { .. } => "BadData",
        SmfFault::BadMeta { .. } => "BadMeta",
        SmfFault::TooLate { .. } => "TooLate",
        SmfFault::Memory => "Memory",
    }
}

/// The number of a fault of a MIDI file, where it has one: its place, or the format.
pub fn smf_number(fault: SmfFault) -> Option<u64>
    ensures { result ≡ smf_number fault }
{
    match fault {
        SmfFault::Format(format) => Some(u64::from(format)),
        SmfFault::Truncated { at }
        | SmfFault::BadQuantity { at }
        | SmfFault::NoStatus { at }
        | SmfFault::BadStatus { at }
        | SmfFault::BadData { at }
        | SmfFault::BadMeta { at }
        | SmfFault::TooLate { at } => Some(at),
        SmfFault::NotSmf | SmfFault::Smpte | SmfFault::ZeroDivision | SmfFault::Memory => None,
    }
}

/// The name of what is wrong with a line of a grammar file.
pub fn what_name(what: GrammarWhat) -> &'static str
    ensures { result.now ≡ what_name what }
{
    match what {
        GrammarWhat::Header => "Header",
        GrammarWhat::Line => "Line",
        GrammarWhat::Number { .. } => "Number",
        GrammarWhat::DoubleStart => "DoubleStart",
        GrammarWhat::TooManyRules => "TooManyRules",
        GrammarWhat::TooManyNames => "TooManyNames",
        GrammarWhat::UnknownName => "UnknownName",
        GrammarWhat::Memory => "Memory",
    }
}

/// The greatest number that is allowed, where another stands.
pub fn what_number(what: GrammarWhat) -> Option<u64>
    ensures { result ≡ what_number what }
{
    match what {
        GrammarWhat::Number { limit } => Some(u64::from(limit)),
        GrammarWhat::Header
        | GrammarWhat::Line
        | GrammarWhat::DoubleStart
        | GrammarWhat::TooManyRules
        | GrammarWhat::TooManyNames
        | GrammarWhat::UnknownName
        | GrammarWhat::Memory => None,
    }
}

/// What a performance has a limit of.
fn limit_name(what: LimitKind) -> &'static str
    ensures { result.now ≡ limit_word what }
{
    match what {
        LimitKind::Notes => "notes",
        LimitKind::Bars => "bars",
        LimitKind::Cells => "cells",
        LimitKind::Line => "line",
    }
}

/// The name of a fault of an edit, as in the reply to it.
pub fn fault_name(fault: EditFault) -> &'static str
    ensures { slice_get (fault_words fault) 0 ≡ Some result.now }
{
    match fault {
        EditFault::NoVoice(_) => "NoVoice",
        EditFault::NoBar(_) => "NoBar",
        EditFault::BadSpan => "BadSpan",
        EditFault::NoNote => "NoNote",
        EditFault::SameNote => "SameNote",
        EditFault::PastEnd { .. } => "PastEnd",
        EditFault::BarlineOrder { .. } => "BarlineOrder",
        EditFault::NoteOutside { .. } => "NoteOutside",
        EditFault::NotEmpty { .. } => "NotEmpty",
        EditFault::OneBar => "OneBar",
        EditFault::Limit { .. } => "Limit",
        EditFault::NoDerivation { .. } => "NoDerivation",
        EditFault::Memory => "Memory",
    }
}

/// The numbers of a fault of an edit.
#[derive(Clone, Copy)]
pub enum FaultNumbers {
    None,
    One(u64),
    Two(u64, u64),
    /// What has a limit, and the count that is above it.
    Limit(&'static str, u64),
}

/// The numbers of a fault of an edit, as in the reply to it.
pub fn fault_numbers(fault: EditFault) -> FaultNumbers
    ensures { number_words result ≡ drop 1 (fault_words fault) }
{
    match fault {
        EditFault::NoVoice(channel) => FaultNumbers::One(u64::from(channel)),
        EditFault::NoBar(bar) => FaultNumbers::One(u64::from(bar)),
        EditFault::PastEnd { last } => FaultNumbers::One(last),
        EditFault::BarlineOrder { low, high } => FaultNumbers::Two(low, high),
        EditFault::NoteOutside { onset } | EditFault::NotEmpty { onset } => {
            FaultNumbers::One(onset)
        }
        EditFault::Limit { what, count } => FaultNumbers::Limit(limit_name(what), count),
        EditFault::NoDerivation { channel, bar } => {
            FaultNumbers::Two(u64::from(channel), u64::from(bar))
        }
        EditFault::BadSpan
        | EditFault::NoNote
        | EditFault::SameNote
        | EditFault::OneBar
        | EditFault::Memory => FaultNumbers::None,
    }
}
