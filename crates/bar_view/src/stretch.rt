ghost use Rattle.std.specs.Prelude.{◌≡◌};

use row_laws::Quiet;

/// Units of a bar that are quiet alike.
#[derive(Clone, Copy)]
pub struct Stretch {
    /// Up to which unit they go.
    pub until: u16,
    /// How they sound.
    pub quiet: Quiet,
}

impl Stretch {
    /// No units: it goes up to the first one.
    pub fn none() -> Stretch
        ensures { result.until ≡ 0 }
    {
        Stretch {
            until: 0,
            quiet: Quiet::Silent,
        }
    }
}
