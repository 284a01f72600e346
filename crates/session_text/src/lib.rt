//! The **kern text of a session: that of its score, as it is now.
#![tactic(auto)]

mod kern_text;

pub use kern_text::KernText;
pub use kern_writer::ScoreFault;
