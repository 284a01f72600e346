ghost use Rattle.rhythm_base.specs.Counter.{risen};
ghost use Rattle.std.specs.Prelude.{◌≡◌, ℕ};

use rhythm_base::Tag;
use std::marker::{Model, PhantomData};

/// A number of builds. It stays at 2 to the power 64 less one, and is marked by what it counts for. Only `build_cell`,
/// `build_planned`, `BarTable::for_equal_input` and the leave for a build raise it, besides adding another counter of the same
/// mark.
#[derive(Drop)]
pub struct Steps<B: Tag> {
    count: u64,
    mark: PhantomData<B>,
}

/// The leave for one build, which a counter gave. Who builds by it needs no counter.
#[derive(Drop)]
pub struct Leave {
    counted: (),
}

impl<B: Tag> Model for Steps<B> {
    ghost Value = { ℕ };

    ghost view = { λ s. s.count };
}

impl<B: Tag> Steps<B> {
    /// A counter at 0.
    pub fn zero() -> Steps<B>
        ensures { result ≡ 0 }
    {
        Steps {
            count: 0,
            mark: PhantomData,
        }
    }

    /// The number of builds so far.
    pub fn count(&self) -> u64
        ensures { result ≡ self.now }
    {
        self.count
    }

    /// Adds the other's number.
    pub fn absorb(&mut self, other: Steps<B>)
        ensures { self.new ≡ risen self.old other }
    {
        self.count = self.count.saturating_add(other.count);
    }

    /// The leave for one build, which is counted here.
    #[inline(always)]
    pub fn leave(&mut self) -> Leave
        ensures { self.new ≡ risen self.old 1 }
    {
        self.tick();
        Leave { counted: () }
    }

    /// One build more.
    pub(crate) fn tick(&mut self)
        ensures { self.new ≡ risen self.old 1 }
    {
        self.count = self.count.saturating_add(1);
    }
}
