ghost use Rattle.least_rows.specs.Choices.{AreSettled};
ghost use Rattle.std.specs.Prelude.{◌≡◌, ◌++◌, [], ◌∷◌, IfOk, OnOk, length};

use crate::choice::{Choices, alone, take_first};
use crate::entry::Entry;
use crate::state::RowSpan;
use std::alloc::AllocError;

/// Adds the entries of the choices, in the order of their rule lists.
pub fn settle(entries: &mut Vec<Entry>, best: &mut Choices) -> Result<RowSpan, AllocError>
    ensures { IfOk result (AreSettled best.old entries.old.items entries.new.items) }
{
    match alone(best) {
        Some(entry) => settle_one(entries, entry),
        None => settle_several(entries, best),
    }
}

/// Adds an entry.
#[inline(always)]
fn settle_one(entries: &mut Vec<Entry>, entry: Entry) -> Result<RowSpan, AllocError>
    ensures items { OnOk result (entries.new.items ≡ entries.old.items ++ entry ∷ []) }
    ensures span { IfOk result (λ span. (span.first ≡ length entries.old.items) × (span.count ≡ 1)) }
{
    let first = u32::try_from(entries.len()).ok().ok_or(AllocError)?;
    entries.push(entry)?;
    Ok(RowSpan { first, count: 1 })
}

/// Adds the entries of any choices.
fn settle_several(entries: &mut Vec<Entry>, best: &mut Choices) -> Result<RowSpan, AllocError>
    ensures { IfOk result (AreSettled best.old entries.old.items entries.new.items) }
{
    let first = u32::try_from(entries.len()).ok().ok_or(AllocError)?;
    let mut count = 0u8;
    'entries: while let Some(entry) = take_first(best) {
        entries.push(entry)?;
        count += 1;
    }
    Ok(RowSpan { first, count })
}
