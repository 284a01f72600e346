ghost use Rattle.score_words.specs.Separators.{separator_text};
ghost use Rattle.std.specs.Prelude.{◌≡◌, ◌++◌, OnOk, replicate};

use std::alloc::AllocError;

/// Appends a byte so many times.
pub fn push_times(text: &mut Vec<u8>, byte: u8, count: u8) -> Result<(), AllocError>
    ensures { OnOk result (text.new.items ≡ text.old.items ++ replicate count byte) }
{
    'times: for _ in 0..count {
        text.push(byte)?;
    }
    Ok(())
}

/// Appends the separator before the word of this number, counted from 0: none before the first.
pub fn push_between(text: &mut Vec<u8>, byte: u8, number: usize) -> Result<(), AllocError>
    ensures { OnOk result (text.new.items ≡ text.old.items ++ separator_text byte number) }
{
    if number > 0 {
        text.push(byte)?;
    }
    Ok(())
}
