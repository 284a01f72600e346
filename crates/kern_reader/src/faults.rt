ghost use Rattle.kern_reader.specs.Faults as definitions;
ghost use Rattle.kern_reader.specs.Faults.{first_fault, text_tests};
ghost use Rattle.kern_reader.specs.declared.fault.KernWhat.TheVariants.{Memory};
ghost use Rattle.std.specs.Prelude.{◌≡◌, ◌≢◌, IfSome};

use crate::fault::KernWhat;
use crate::line::{KernLine, Stage};
use crate::line_words::{all_are, width};

/// Whether no line is read yet.
fn is_head_stage(stage: Stage) -> bool
    ensures { result ≡ definitions.is_head_stage stage }
{
    matches!(stage, Stage::Head)
}

#[tactic(auto, unfolding(crate::specs::Faults::has_no_head))]
/// Whether a head is missing.
fn has_no_head(stage: Stage, text: &[u8]) -> bool
    ensures { result ≡ definitions.has_no_head stage text.now }
{
    is_head_stage(stage) && !(all_are(b"**kern", text) && width(text) <= 16)
}

#[tactic(auto, unfolding(crate::specs::Faults::is_out_of_turn))]
/// Whether the end stands where it may not, or another line where only the end may.
fn is_out_of_turn(stage: Stage, text: &[u8]) -> bool
    ensures { result ≡ definitions.is_out_of_turn stage text.now }
{
    match stage {
        Stage::Head => false,
        Stage::Body => all_are(b"*-", text),
        Stage::Last => !all_are(b"*-", text),
        Stage::Over => true,
    }
}

#[tactic(auto, unfolding(crate::specs::Faults::has_wrong_width))]
/// Whether a line has another number of columns than there are spines.
fn has_wrong_width(stage: Stage, spines: usize, text: &[u8]) -> bool
    ensures { result ≡ definitions.has_wrong_width stage spines text.now }
{
    !is_head_stage(stage) && !text.is_empty() && width(text) != spines
}

/// The fault of a line by its text alone.
pub(crate) fn text_fault(stage: Stage, spines: usize, text: &[u8]) -> Option<KernWhat>
    ensures fault { result ≡ first_fault (text_tests stage spines text.now) }
    ensures no_memory { IfSome result (λ what. what ≢ Memory) }
{
    if has_no_head(stage, text) {
        Some(KernWhat::Head)
    } else if is_out_of_turn(stage, text) {
        Some(KernWhat::End)
    } else if has_wrong_width(stage, spines, text) {
        Some(KernWhat::Width)
    } else {
        None
    }
}

#[tactic(auto, unfolding(crate::specs::Faults::is_unread))]
/// Whether the line says nothing that may stand there.
pub(crate) fn is_unread(stage: Stage, line: &KernLine) -> bool
    ensures { result ≡ definitions.is_unread stage line.now }
{
    match line {
        KernLine::Unread => true,
        KernLine::Heading(_count) => !is_head_stage(stage),
        _ => false,
    }
}
