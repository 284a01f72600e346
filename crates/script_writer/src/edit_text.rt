ghost use Rattle.script_writer.specs.EditText.{edit_line, named_numbers, key_line, pin_line, script_text, spaced_numbers};
ghost use Rattle.std.specs.Prelude.{◌≡◌, ◌∷◌, ◌++◌, IfOk, OnOk, decimal};

use rhythm_base::{Edit, Shape};
use std::alloc::{AllocError, Global};

/// Appends a space and a number in decimal digits.
fn push_number(text: &mut Vec<u8>, number: u64) -> Result<(), AllocError>
    ensures { OnOk result (text.new.items ≡ text.old.items ++ (32 ∷ decimal number)) }
{
    text.extend_from_slice(b" ")?;
    let mut buffer = itoa::Buffer::new();
    text.extend_from_slice(buffer.format(number).as_bytes())
}

/// Appends numbers, with a space before each.
fn push_numbers(text: &mut Vec<u8>, numbers: &[u64]) -> Result<(), AllocError>
    ensures { OnOk result (text.new.items ≡ text.old.items ++ spaced_numbers numbers.now) }
{
    'numbers: for number in numbers {
        push_number(text, *number)?;
    }
    Ok(())
}

/// Appends a name and numbers, with a space between two words.
fn push_words(text: &mut Vec<u8>, name: &[u8], numbers: &[u64]) -> Result<(), AllocError>
    ensures { OnOk result (text.new.items ≡ text.old.items ++ named_numbers name.now numbers.now) }
{
    text.extend_from_slice(name)?;
    push_numbers(text, numbers)
}

/// Appends a name, a channel, a key of it and ticks.
fn push_key(
    text: &mut Vec<u8>,
    name: &[u8],
    channel: u8,
    key: u8,
    ticks: &[u64],
) -> Result<(), AllocError>
    ensures { OnOk result (text.new.items ≡ text.old.items ++ key_line name.now channel key ticks.now) }
{
    push_words(text, name, &[u64::from(channel), u64::from(key)])?;
    push_numbers(text, ticks)
}

/// Appends the line of a pin.
fn push_pin(
    alloc: Global,
    text: &mut Vec<u8>,
    channel: u8,
    bar: u32,
    shape: &Shape,
) -> Result<(), AllocError>
    ensures { OnOk result (text.new.items ≡ text.old.items ++ pin_line channel bar shape.now) }
{
    let shape = shape.text(alloc)?;
    push_words(text, b"pin", &[u64::from(channel), u64::from(bar)])?;
    text.extend_from_slice(b" ")?;
    text.extend_from_slice(shape.as_bytes())
}

/// Appends the line of an edit.
fn push_edit(alloc: Global, text: &mut Vec<u8>, edit: &Edit) -> Result<(), AllocError>
    ensures { OnOk result (text.new.items ≡ text.old.items ++ edit_line edit.now) }
{
    match edit {
        Edit::Add {
            channel,
            key,
            onset,
            end,
        } => push_key(text, b"add", *channel, *key, &[*onset, *end]),
        Edit::Drop {
            channel,
            key,
            onset,
        } => push_key(text, b"drop", *channel, *key, &[*onset]),
        Edit::Move {
            channel,
            key,
            onset,
            to,
        } => push_key(text, b"move", *channel, *key, &[*onset, *to]),
        Edit::Barline { bar, tick } => push_words(text, b"barline", &[u64::from(*bar), *tick]),
        Edit::Pin {
            channel,
            bar,
            shape,
        } => push_pin(alloc, text, *channel, *bar, shape),
        Edit::Unpin { channel, bar } => {
            push_words(text, b"unpin", &[u64::from(*channel), u64::from(*bar)])
        }
        Edit::AddBar => push_words(text, b"addbar", &[]),
        Edit::DropBar => push_words(text, b"dropbar", &[]),
    }
}

/// The text of an edit script that says the edits in their order: a line for each, with a newline at its end, and numbers
/// without leading zeros. Edits in the ranges that `Edit` names, with shapes of at most 96 levels, are read back from it; no
/// line says any other. The line of a pin has the whole text of the shape, so it may be longer than a line of a script may
/// be (`LONGEST_SCRIPT_LINE`).
pub fn write_edits(alloc: Global, edits: &[Edit]) -> Result<Vec<u8>, AllocError>
    ensures { IfOk result (λ v. v.items ≡ script_text edits.now) }
{
    let mut text = Vec::new(alloc);
    'edits: for edit in edits {
        push_edit(alloc, &mut text, edit)?;
        text.extend_from_slice(b"\n")?;
    }
    Ok(text)
}
