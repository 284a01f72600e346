ghost use Rattle.std.specs.Prelude.{◌≡◌, IfOk};

use rhythm_base::Performance;
use std::alloc::AllocError;

/// An equal performance, which shares all that it has.
pub fn copied(performance: &Performance) -> Result<Performance, AllocError>
    ensures { IfOk result (λ p. p ≡ performance.now) }
{
    let bars = performance.shared_bars()?;
    let notes = performance.notes().shared()?;
    let pins = performance.shared_pins()?;
    performance.with_parts(bars, performance.last(), notes, pins)
}
