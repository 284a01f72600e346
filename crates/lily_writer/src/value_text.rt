ghost use Rattle.lily_writer.specs.Values as definitions;
ghost use Rattle.lily_writer.specs.Values.{base_text, scale_of_part, scale_text, lily_value};
ghost use Rattle.durations.specs.Value.{plain_grid};
ghost use Rattle.score_words.specs.Writing.{Writes};
ghost use Rattle.std.specs.Prelude.{◌≡◌, ◌≤◌};

use durations::{Length, Recip, Value, lowest};
use score_words::{push_number, push_times};
use std::alloc::AllocError;

/// The largest power of two that is at most a number, up to 64.
fn written_part(number: u32) -> u64
    ensures part { result ≡ definitions.written_part number }
    ensures some { 1 ≤ result }
{
    match number {
        64.. => 64,
        32.. => 32,
        16.. => 16,
        8.. => 8,
        4.. => 4,
        2.. => 2,
        _ => 1,
    }
}

/// Appends the scale that makes 1/`part` to 1/`number`, where they are not one.
fn push_scale(text: &mut Vec<u8>, part: u64, number: u64) -> Result<(), AllocError>
    requires { 1 ≤ number }
    ensures { Writes (scale_of_part part number) text.old result text.new }
{
    if part == number {
        return Ok(());
    }
    let scale = lowest(Length {
        parts: part,
        whole: number,
    });
    text.push(b'*')?;
    push_number(text, scale.parts)?;
    text.push(b'/')?;
    push_number(text, scale.whole)
}

/// Appends the word or the number of a value.
fn push_base(text: &mut Vec<u8>, recip: Recip) -> Result<(), AllocError>
    ensures { Writes (base_text recip) text.old result text.new }
{
    match recip {
        Recip::Of(number) => push_number(text, written_part(number)),
        Recip::Breve => text.extend_from_slice(b"\\breve"),
        Recip::Long => text.extend_from_slice(b"\\longa"),
    }
}

/// Appends a value.
pub(crate) fn push_value(text: &mut Vec<u8>, value: Value) -> Result<(), AllocError>
    requires { 1 ≤ plain_grid value.recip }
    ensures { Writes (lily_value value) text.old result text.new }
{
    push_base(text, value.recip)?;
    push_times(text, b'.', value.dots)?;
    match value.recip {
        Recip::Of(number) => push_scale(text, written_part(number), u64::from(number)),
        Recip::Breve | Recip::Long => Ok(()),
    }
}
