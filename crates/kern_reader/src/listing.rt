ghost use Rattle.kern_reader.specs.EventText.{AddsColumnLines, AreEventLines};
ghost use Rattle.kern_reader.specs.Score.{IsColumnOn};
ghost use Rattle.std.specs.Prelude.{◌<◌, ◌^◌, IfOk, OnOk, length};

use crate::event_text::push_lines;
use crate::events::{Walk, push_beginning};
use crate::score::KernScore;
use crate::token::Token;
use durations::Grid;
use std::alloc::{AllocError, Global};

/// Appends the lines of the events of a column, one after another: no more than one of them is held.
fn push_column(
    alloc: Global,
    spine: u8,
    tokens: &[Token],
    grid: Grid,
    text: &mut Vec<u8>,
) -> Result<(), AllocError>
    requires on { IsColumnOn grid tokens.now }
    requires short { length tokens.now < 2 ^ 32 }
    ensures { OnOk result (AddsColumnLines grid spine tokens.now text.old.items text.new.items) }
{
    let mut walk = Walk::new(alloc);
    let mut own = Vec::new(alloc);
    let mut later = tokens;
    'tokens: while let [token, after @ ..] = later {
        own.clear();
        push_beginning(alloc, spine, &walk, *token, after, grid, &mut own)?;
        push_lines(text, own.as_slice())?;
        walk.step(*token, grid)?;
        later = after;
    }
    Ok(())
}

impl KernScore {
    /// The lines of the sounding spans of the score, by spine and then by start: `SPINE START LENGTH KIND KEYS` and the grace
    /// chords, with fractions of a whole note from the beginning of the score in lowest terms. Beside the score it takes memory
    /// for the text, and for one span at a time.
    pub fn write_events(&self, alloc: Global) -> Result<Vec<u8>, AllocError>
        ensures { IfOk result (λ v. AreEventLines self.now v.items) }
    {
        let mut text = Vec::new(alloc);
        'columns: for (number, column) in self.columns.iter().enumerate() {
            push_column(
                alloc,
                number as u8 + 1,
                column.as_slice(),
                self.grid,
                &mut text,
            )?;
        }
        Ok(text)
    }
}
