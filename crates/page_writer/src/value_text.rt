ghost use Rattle.page_writer.specs.Values.{base_text, page_value, scale_text};
ghost use Rattle.score_words.specs.Writing.{Writes};

use durations::{Recip, Value};
use score_words::{push_number, push_times};
use std::alloc::AllocError;

/// The shortest value with flags is this part of a whole note.
const SHORTEST: u32 = 1024;

/// Appends the number or the word of a value.
fn push_base(text: &mut Vec<u8>, recip: Recip) -> Result<(), AllocError>
    ensures { Writes (base_text recip) text.old result text.new }
{
    match recip {
        Recip::Of(number) => push_number(text, u64::from(number.min(SHORTEST))),
        Recip::Breve => text.extend_from_slice(b"\\breve"),
        Recip::Long => text.extend_from_slice(b"\\longa"),
    }
}

/// Appends the scale of a value that is shorter than any with flags.
fn push_scale(text: &mut Vec<u8>, recip: Recip) -> Result<(), AllocError>
    ensures { Writes (scale_text recip) text.old result text.new }
{
    match recip {
        Recip::Of(number) if number > SHORTEST => {
            text.extend_from_slice(b"*1/")?;
            push_number(text, u64::from(number / SHORTEST))
        }
        _ => Ok(()),
    }
}

/// Appends a value.
pub(crate) fn push_value(text: &mut Vec<u8>, value: Value) -> Result<(), AllocError>
    ensures { Writes (page_value value) text.old result text.new }
{
    push_base(text, value.recip)?;
    push_times(text, b'.', value.dots)?;
    push_scale(text, value.recip)
}
