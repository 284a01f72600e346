ghost use Rattle.std.specs.Prelude.{◌<◌, ℕ, IfOk};

use least_cost::Leave;
use least_rows::Room;
use std::alloc::{AllocError, Global};

/// What is built, one for each number from 0 on.
pub trait Job<T> {
    ghost count: { Self → ℕ };

    /// It can be built.
    ghost ready: { Self → Type 0 };

    /// This is what is to be built for the number.
    ghost built: { Self → ℕ → T → Type 0 };

    /// Builds what is to be built for a number, by the leave of a counter, in a room that is kept from one to the next.
    fn build(
        &self,
        leave: Leave,
        alloc: Global,
        number: usize,
        room: &mut Room,
    ) -> Result<T, AllocError>
        requires ready { ready self.now }
        requires within { number < count self.now }
        ensures { IfOk result (built self.now number) };
}
