ghost use Rattle.musicxml_writer.specs.Text.{channel_name, instrument_start, listed_part, listed_parts, named_instrument, played_instrument};
ghost use Rattle.musicxml_writer.specs.Elements.{element, opening_with};
ghost use Rattle.score_words.specs.Writing.{Writes};
ghost use Rattle.std.specs.Prelude.{codes};

use crate::elements::{close, close_line, end_opening, open, push_count, start_attribute};
use crate::part::push_part_name;
use score_words::push_number;
use std::alloc::AllocError;

/// Appends an element of the name of a channel.
#[tactic(auto, unfolding(crate::specs::Elements::element))]
fn push_channel_name(text: &mut Vec<u8>, name: &str, channel: u8) -> Result<(), AllocError>
    ensures { Writes (element name.now (channel_name channel)) text.old result text.new }
{
    open(text, name)?;
    text.extend_from_slice(b"Channel ")?;
    push_number(text, u64::from(channel))?;
    close(text, name)
}

/// Appends the name of the instrument of a part, in the tag that opens an element.
#[tactic(auto, unfolding(crate::specs::Elements::opening_with))]
fn open_instrument(text: &mut Vec<u8>, name: &str, number: u64) -> Result<(), AllocError>
    ensures { Writes (instrument_start name.now number) text.old result text.new }
{
    start_attribute(text, name, "id")?;
    push_part_name(text, number)?;
    text.extend_from_slice(b"-I1")?;
    end_opening(text)
}

/// Appends the element of the instrument of a part.
#[tactic(auto, unfolding(crate::specs::Text::named_instrument))]
fn push_named_instrument(text: &mut Vec<u8>, number: u64, channel: u8) -> Result<(), AllocError>
    ensures { Writes (named_instrument number channel) text.old result text.new }
{
    open_instrument(text, "score-instrument", number)?;
    push_channel_name(text, "instrument-name", channel)?;
    close(text, "score-instrument")
}

/// Appends the element of what the instrument of a part plays on.
#[tactic(auto, unfolding(crate::specs::Text::played_instrument))]
fn push_played_instrument(text: &mut Vec<u8>, number: u64, channel: u8) -> Result<(), AllocError>
    ensures { Writes (played_instrument number channel) text.old result text.new }
{
    open_instrument(text, "midi-instrument", number)?;
    push_count(text, "midi-channel", u64::from(channel) + 1)?;
    close(text, "midi-instrument")
}

/// Appends the line of a part in the list of them.
#[tactic(auto, unfolding(crate::specs::Elements::opening_with, crate::specs::Text::listed_part))]
fn push_listed_part(text: &mut Vec<u8>, number: u64, channel: u8) -> Result<(), AllocError>
    ensures { Writes (listed_part number channel) text.old result text.new }
{
    start_attribute(text, "score-part", "id")?;
    push_part_name(text, number)?;
    end_opening(text)?;
    push_channel_name(text, "part-name", channel)?;
    push_named_instrument(text, number, channel)?;
    push_played_instrument(text, number, channel)?;
    close_line(text, "score-part")
}

/// Appends the lines of the parts of these channels.
pub(crate) fn push_listed_parts(text: &mut Vec<u8>, channels: &[u8]) -> Result<(), AllocError>
    ensures { Writes (listed_parts 1 channels.now) text.old result text.new }
{
    'channels: for (index, channel) in channels.iter().enumerate() {
        push_listed_part(text, index as u64 + 1, *channel)?;
    }
    Ok(())
}
