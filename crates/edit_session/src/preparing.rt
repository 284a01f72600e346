ghost use Rattle.std.specs.Prelude.{◌≡◌, ◌+◌, ◌*◌, ◌≤◌, IfOk, [], vec_capacity};

use crate::prepared::CellTable;
use std::alloc::{AllocError, Global};

/// Memory for so many tables, and for those of so many lost bars of each voice.
pub fn place_for(
    alloc: Global,
    tables: usize,
    voices: usize,
    lost: usize,
) -> Result<Vec<CellTable>, AllocError>
    ensures none { IfOk result (λ v. v.items ≡ []) }
    ensures memory { IfOk result (λ v. tables + voices * lost ≤ vec_capacity v) }
{
    match voices.checked_mul(lost) {
        None => Err(AllocError),
        Some(all) => match tables.checked_add(all) {
            None => Err(AllocError),
            Some(count) => Vec::with_capacity(alloc, count),
        },
    }
}
