ghost use Rattle.smf_bytes.specs.Quantity.{IsShortest};
ghost use Rattle.std.specs.Prelude.{◌<◌, ℕ};

/// A quantity, as the ticks between two events are written, says its number, and no list of fewer bytes does.
pub fn quantities_are_shortest()
    ensures { (n : ℕ) → n < 268435456 → IsShortest n }
{}
