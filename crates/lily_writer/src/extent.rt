ghost use Rattle.std.specs.Prelude.{◌≡◌, max, min};

/// From one place of a score to another, in parts of a whole note.
#[derive(Clone, Copy)]
pub(crate) struct Extent {
    pub(crate) from: u64,
    pub(crate) to: u64,
}

impl Extent {
    /// What of it is in a bar. Where nothing is, it does not end after its start.
    pub(crate) fn cut(self, bar: Extent) -> Extent
        ensures from { result.from ≡ max bar.from self.from }
        ensures to { result.to ≡ min bar.to self.to }
    {
        Extent {
            from: bar.from.max(self.from),
            to: bar.to.min(self.to),
        }
    }
}
