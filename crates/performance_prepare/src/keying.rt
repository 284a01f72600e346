ghost use Rattle.performance_prepare.specs.Keying as keying;
ghost use Rattle.std.specs.Prelude.{◌≡◌, IfOk};

use performance_load::Take;
use rhythm_base::KeyMark;
use std::alloc::{AllocError, Global};

/// The take with this key in place of its own.
pub fn with_key(alloc: Global, sf: i8, take: Take) -> Result<Take, AllocError>
    ensures { IfOk result (λ t. t ≡ keying.with_key sf take) }
{
    let key_marks = vec![in alloc; KeyMark { tick: 0, sf }]?;
    Ok(Take { key_marks, ..take })
}
