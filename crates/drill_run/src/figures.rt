ghost use Rattle.drill_run.specs.Summary.{figure_line, summary_text};
ghost use Rattle.std.specs.Prelude.{◌≡◌, ◌++◌, IfOk, OnOk};

use std::alloc::{AllocError, Global};

/// The figures of a summary.
#[derive(Clone, Copy, Debug, PartialEq, Eq)]
pub struct Figures {
    pub bars: u64,
    pub cells: u64,
    pub accepted: u64,
    pub built: u64,
    pub cost: u64,
    pub bytes: u64,
}

/// Appends a line of a word and a number.
fn push_line(text: &mut Vec<u8>, word: &[u8], number: u64) -> Result<(), AllocError>
    ensures { OnOk result (text.new.items ≡ text.old.items ++ figure_line word.now number) }
{
    let mut buffer = itoa::Buffer::new();
    text.extend_from_slice(word)?;
    text.extend_from_slice(b" ")?;
    text.extend_from_slice(buffer.format(number).as_bytes())?;
    text.extend_from_slice(b"\n")
}

/// The six lines of a summary.
pub(crate) fn text_of(alloc: Global, figures: &Figures) -> Result<Vec<u8>, AllocError>
    ensures { IfOk result (λ text. text.items ≡ summary_text figures.now) }
{
    let mut text = Vec::new(alloc);
    push_line(&mut text, b"bars", figures.bars)?;
    push_line(&mut text, b"cells", figures.cells)?;
    push_line(&mut text, b"accepted", figures.accepted)?;
    push_line(&mut text, b"built", figures.built)?;
    push_line(&mut text, b"cost", figures.cost)?;
    push_line(&mut text, b"bytes", figures.bytes)?;
    Ok(text)
}
