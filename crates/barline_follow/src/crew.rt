ghost use Rattle.std.specs.Prelude.{◌≤◌};

use grammar_plan::Plan;

/// How many lists are looked at together for each of several workers, so that each has cells to build. The fewer they are, the more of
/// them are passed over.
const LISTS_FOR_A_WORKER: usize = 32;

/// By which plan and by up to how many workers cells are built.
#[derive(Drop)]
pub struct Crew<'a> {
    pub plan: &'a Plan,
    pub workers: u32,
}

impl<'a> Crew<'a> {
    /// How many lists are looked at together: by one worker each by itself.
    pub fn batch(&self) -> usize
        ensures { 1 ≤ result }
    {
        if self.workers <= 1 {
            1
        } else {
            self.workers as usize * LISTS_FOR_A_WORKER
        }
    }
}
