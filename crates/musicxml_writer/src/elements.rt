ghost use Rattle.musicxml_writer.specs.Elements.{attribute_start, closing, element, empty_element, empty_with, opening, opening_with, some_element};
ghost use Rattle.std.specs.Fmt.{signed_decimal};
ghost use Rattle.score_words.specs.Writing.{Writes};
ghost use Rattle.std.specs.Prelude.{◌++◌, codes, decimal};

use itoa::Buffer;
use score_words::push_number;
use std::alloc::AllocError;

/// Appends the tag that opens an element.
#[tactic(auto, unfolding(crate::specs::Elements::opening))]
pub(crate) fn open(text: &mut Vec<u8>, name: &str) -> Result<(), AllocError>
    ensures { Writes (opening name.now) text.old result text.new }
{
    text.push(b'<')?;
    text.extend_from_slice(name.as_bytes())?;
    text.push(b'>')?;
    Ok(())
}

/// Appends the tag that closes an element.
#[tactic(auto, unfolding(crate::specs::Elements::closing))]
pub(crate) fn close(text: &mut Vec<u8>, name: &str) -> Result<(), AllocError>
    ensures { Writes (closing name.now) text.old result text.new }
{
    text.extend_from_slice(b"</")?;
    text.extend_from_slice(name.as_bytes())?;
    text.push(b'>')?;
    Ok(())
}

/// Appends the tag that closes an element, and ends the line.
pub(crate) fn close_line(text: &mut Vec<u8>, name: &str) -> Result<(), AllocError>
    ensures { Writes (closing name.now ++ codes "\n") text.old result text.new }
{
    close(text, name)?;
    text.push(b'\n')?;
    Ok(())
}

/// Appends a tag up to the value of its attribute.
#[tactic(auto, unfolding(crate::specs::Elements::attribute_start))]
pub(crate) fn start_attribute(
    text: &mut Vec<u8>,
    name: &str,
    attribute: &str,
) -> Result<(), AllocError>
    ensures { Writes (attribute_start name.now attribute.now) text.old result text.new }
{
    text.push(b'<')?;
    text.extend_from_slice(name.as_bytes())?;
    text.push(b' ')?;
    text.extend_from_slice(attribute.as_bytes())?;
    text.extend_from_slice(b"=\"")
}

/// Appends the end of a tag after the value of its attribute.
pub(crate) fn end_opening(text: &mut Vec<u8>) -> Result<(), AllocError>
    ensures { Writes (codes "\">") text.old result text.new }
{
    text.extend_from_slice(b"\">")
}

/// Appends the tag that opens an element with an attribute.
#[tactic(auto, unfolding(crate::specs::Elements::opening_with))]
pub(crate) fn open_with(
    text: &mut Vec<u8>,
    name: &str,
    attribute: &str,
    value: &str,
) -> Result<(), AllocError>
    ensures { Writes (opening_with name.now attribute.now value.now) text.old result text.new }
{
    start_attribute(text, name, attribute)?;
    text.extend_from_slice(value.as_bytes())?;
    end_opening(text)
}

/// Appends an empty element.
#[tactic(auto, unfolding(crate::specs::Elements::empty_element))]
pub(crate) fn push_empty(text: &mut Vec<u8>, name: &str) -> Result<(), AllocError>
    ensures { Writes (empty_element name.now) text.old result text.new }
{
    text.push(b'<')?;
    text.extend_from_slice(name.as_bytes())?;
    text.extend_from_slice(b"/>")
}

/// Appends an empty element with an attribute.
#[tactic(auto, unfolding(crate::specs::Elements::empty_with))]
pub(crate) fn push_empty_with(
    text: &mut Vec<u8>,
    name: &str,
    attribute: &str,
    value: &str,
) -> Result<(), AllocError>
    ensures { Writes (empty_with name.now attribute.now value.now) text.old result text.new }
{
    start_attribute(text, name, attribute)?;
    text.extend_from_slice(value.as_bytes())?;
    text.extend_from_slice(b"\"/>")
}

/// Appends an element of words.
#[tactic(auto, unfolding(crate::specs::Elements::element))]
pub(crate) fn push_words(text: &mut Vec<u8>, name: &str, words: &str) -> Result<(), AllocError>
    ensures { Writes (element name.now words.now) text.old result text.new }
{
    open(text, name)?;
    text.extend_from_slice(words.as_bytes())?;
    close(text, name)
}

/// Appends an element of words, where there are some.
#[tactic(auto, unfolding(crate::specs::Elements::some_element))]
pub(crate) fn push_some(text: &mut Vec<u8>, name: &str, words: &str) -> Result<(), AllocError>
    ensures { Writes (some_element name.now words.now) text.old result text.new }
{
    if words.is_empty() {
        Ok(())
    } else {
        push_words(text, name, words)
    }
}

/// Appends an element of a number.
#[tactic(auto, unfolding(crate::specs::Elements::element))]
pub(crate) fn push_count(text: &mut Vec<u8>, name: &str, number: u64) -> Result<(), AllocError>
    ensures { Writes (element name.now (decimal number)) text.old result text.new }
{
    open(text, name)?;
    push_number(text, number)?;
    close(text, name)
}

/// Appends an element of a number that may be below 0.
#[tactic(auto, unfolding(crate::specs::Elements::element))]
pub(crate) fn push_signed(text: &mut Vec<u8>, name: &str, number: i8) -> Result<(), AllocError>
    ensures { Writes (element name.now (signed_decimal number)) text.old result text.new }
{
    let mut buffer = Buffer::new();
    open(text, name)?;
    text.extend_from_slice(buffer.format(number).as_bytes())?;
    close(text, name)
}
