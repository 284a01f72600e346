ghost use Rattle.std.specs.Prelude.{◌≡◌};

use crate::spine::Column;
use durations::Grid;
use std::marker::Model;

/// A score that was read from a **kern text.
#[derive(Drop)]
pub struct KernScore {
    pub(crate) columns: Vec<Column>,
    /// In so many parts of a whole note all values count.
    pub(crate) grid: Grid,
}

impl Model for KernScore {
    ghost use Rattle.kern_reader.specs.Score.{IsKernScore, KernColumns};

    ghost Value = { KernColumns };

    ghost view = { λ s. record { grid = s.grid; columns = s.columns.items } };

    ghost invariant = { λ s. IsKernScore (record { grid = s.grid; columns = s.columns.items }) };
}
