ghost use Rattle.edit_script.specs.Pieces.{details_texts};
ghost use Rattle.edit_script.specs.Replies.{fault_words, limit_word};
ghost use Rattle.std.specs.Prelude.{◌≡◌, Some, drop, slice_get};

use crate::word::Word;
use rhythm_base::{EditFault, LimitKind};

/// What stands after the name of a refusal.
#[derive(Clone, Copy)]
pub(crate) enum Details {
    None,
    One(Word<'static>),
    Two(Word<'static>, Word<'static>),
}

/// The word of a limit.
fn limit_word(kind: LimitKind) -> &'static [u8]
    ensures { result.now ≡ limit_word kind }
{
    match kind {
        LimitKind::Notes => b"notes",
        LimitKind::Bars => b"bars",
        LimitKind::Cells => b"cells",
        LimitKind::Line => b"line",
    }
}

/// The name of a refusal.
pub(crate) fn name_of(fault: EditFault) -> &'static [u8]
    ensures { slice_get (fault_words fault) 0 ≡ Some result.now }
{
    match fault {
        EditFault::NoVoice(_) => b"NoVoice",
        EditFault::NoBar(_) => b"NoBar",
        EditFault::BadSpan => b"BadSpan",
        EditFault::NoNote => b"NoNote",
        EditFault::SameNote => b"SameNote",
        EditFault::PastEnd { .. } => b"PastEnd",
        EditFault::BarlineOrder { .. } => b"BarlineOrder",
        EditFault::NoteOutside { .. } => b"NoteOutside",
        EditFault::NotEmpty { .. } => b"NotEmpty",
        EditFault::OneBar => b"OneBar",
        EditFault::Limit { .. } => b"Limit",
        EditFault::NoDerivation { .. } => b"NoDerivation",
        EditFault::Memory => b"Memory",
    }
}

/// What stands after the name of a refusal.
pub(crate) fn details_of(fault: EditFault) -> Details
    ensures { details_texts result ≡ drop 1 (fault_words fault) }
{
    match fault {
        EditFault::NoVoice(channel) => Details::One(Word::Number(u64::from(channel))),
        EditFault::NoBar(bar) => Details::One(Word::Number(u64::from(bar))),
        EditFault::PastEnd { last } => Details::One(Word::Number(last)),
        EditFault::BarlineOrder { low, high } => {
            Details::Two(Word::Number(low), Word::Number(high))
        }
        EditFault::NoteOutside { onset } | EditFault::NotEmpty { onset } => {
            Details::One(Word::Number(onset))
        }
        EditFault::Limit { what, count } => {
            Details::Two(Word::Name(limit_word(what)), Word::Number(count))
        }
        EditFault::NoDerivation { channel, bar } => Details::Two(
            Word::Number(u64::from(channel)),
            Word::Number(u64::from(bar)),
        ),
        EditFault::BadSpan
        | EditFault::NoNote
        | EditFault::SameNote
        | EditFault::OneBar
        | EditFault::Memory => Details::None,
    }
}
