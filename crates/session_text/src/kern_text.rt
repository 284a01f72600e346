ghost use Rattle.kern_writer.specs.PerformanceText.{HasTooLongText, IsTextOf};
ghost use Rattle.kern_writer.specs.declared.fault.ScoreFault.TheVariants.{TooLong};
ghost use Rattle.rhythm_base.specs.declared.limits.TheConstants.{LONGEST_SCORE};
ghost use Rattle.std.specs.Prelude.{◌≡◌, ◌≤◌, ℕ, Err, IfOk, length};

use edit_session::Session;
use kern_writer::{ScoreFault, write_kern};
use std::alloc::Global;

/// What has a **kern text.
pub trait KernText {
    /// The **kern text, of at most 67,108,864 bytes.
    fn score(&self, alloc: Global) -> Result<Vec<u8>, ScoreFault>;
}

impl KernText for Session {
    /// The **kern text of the least derivation of each voice.
    fn score(&self, alloc: Global) -> Result<Vec<u8>, ScoreFault>
        ensures text { IfOk result (λ v. IsTextOf self.now.grammar self.now.performance v.items) }
        ensures short { IfOk result (λ v. length v.items ≤ LONGEST_SCORE) }
        ensures too_long { (line : ℕ) → result ≡ Err (TooLong line) → HasTooLongText self.now.grammar self.now.performance line }
    {
        let score = self.whole_score(alloc)?;
        write_kern(alloc, &score)
    }
}
