ghost use Rattle.barline_follow.specs.Script as scripts;
ghost use Rattle.rhythm_base.specs.declared.limits.TheConstants.{MOST_BARS};
ghost use Rattle.rhythm_base.specs.declared.edit.Edit.{Edit};
ghost use Rattle.std.specs.Prelude.{◌≡◌, ◌+◌, ◌*◌, ◌<◌, ◌≤◌, ◌^◌, ◌++◌, ◌-◌, All, IfOk, OnOk, length, replicate};

use crate::barlines::{barlines, lengthened, pace, whole_bar};
use crate::stages::push_stages;
use rhythm_base::{Edit, Performance};
use std::alloc::{AllocError, Global};

/// Appends so many lines that add a bar.
fn push_added(script: &mut Vec<Edit>, count: usize) -> Result<(), AllocError>
    ensures { OnOk result (script.new.items ≡ script.old.items ++ replicate count Edit.AddBar) }
{
    'bars: for _number in 0..count {
        script.push(Edit::AddBar)?;
    }
    Ok(())
}

/// Appends so many lines that drop a bar.
fn push_dropped(script: &mut Vec<Edit>, count: usize) -> Result<(), AllocError>
    ensures { OnOk result (script.new.items ≡ script.old.items ++ replicate count Edit.DropBar) }
{
    'bars: for _number in 0..count {
        script.push(Edit::DropBar)?;
    }
    Ok(())
}

/// The edit script that leads from the barlines of a performance to these. Among the barlines is that of the first bar, at 0.
pub fn follow_script(
    alloc: Global,
    performance: &Performance,
    goal: &[u64],
) -> Result<Vec<Edit>, AllocError>
    requires few { length goal.now ≤ 2 * MOST_BARS + 1 }
    requires ticks { All (λ tick. tick ≤ 2 ^ 32) goal.now }
    ensures { IfOk result (λ v. v.items ≡ scripts.script performance.now goal.now) }
{
    let ticks = barlines(alloc, performance)?;
    let bar = whole_bar(performance, performance.bars().len() - 1);
    let from = lengthened(alloc, bar, goal.len(), ticks.as_slice())?;
    let to = lengthened(alloc, bar, ticks.len(), goal)?;
    let mut script = Vec::new(alloc);
    push_added(&mut script, goal.len().saturating_sub(ticks.len()))?;
    push_stages(
        alloc,
        &mut script,
        pace(performance),
        from.as_slice(),
        to.as_slice(),
    )?;
    push_dropped(&mut script, ticks.len().saturating_sub(goal.len()))?;
    Ok(script)
}
