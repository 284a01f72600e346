ghost use Rattle.kern_writer.specs.Tokens.{recip_text, value_text};
ghost use Rattle.score_words.specs.Writing.{Writes};

use durations::{Recip, Value};
use score_words::{push_number, push_times};
use std::alloc::AllocError;

/// Appends a value without its dots.
fn push_recip(text: &mut Vec<u8>, recip: Recip) -> Result<(), AllocError>
    ensures { Writes (recip_text recip) text.old result text.new }
{
    match recip {
        Recip::Of(number) => push_number(text, u64::from(number)),
        Recip::Breve => text.extend_from_slice(b"0"),
        Recip::Long => text.extend_from_slice(b"00"),
    }
}

/// Appends a value.
pub(crate) fn push_value(text: &mut Vec<u8>, value: Value) -> Result<(), AllocError>
    ensures { Writes (value_text value) text.old result text.new }
{
    push_recip(text, value.recip)?;
    push_times(text, b'.', value.dots)
}
