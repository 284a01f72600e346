ghost use Rattle.barline_follow.specs.Stages as steps;
ghost use Rattle.rhythm_base.specs.declared.edit.Edit.{Edit};
ghost use Rattle.std.specs.Prelude.{◌≡◌, ◌+◌, ◌<◌, ◌≤◌, ◌^◌, ◌++◌, All, IfOk, List, OnOk, filter, length, map, reverse};

use rhythm_base::Edit;
use std::alloc::{AllocError, Global};

/// How far the barline that moves most has to go.
fn farthest(ticks: &[u64], goal: &[u64]) -> u64
    ensures { result ≡ steps.farthest ticks.now goal.now }
{
    let mut far = 0;
    'barlines: for number in 0..ticks.len().min(goal.len()) {
        far = far.max(ticks[number].abs_diff(goal[number]));
    }
    far
}

/// The fewest stages in which no barline moves by more than a pace.
fn stage_count(pace: u64, ticks: &[u64], goal: &[u64]) -> u64
    requires { 1 ≤ pace }
    ensures { result ≡ steps.stage_count pace ticks.now goal.now }
{
    farthest(ticks, goal).div_ceil(pace)
}

/// Where a barline stands after stage `number` of so many, on its way to `end`.
fn aim(stages: u64, number: u64, tick: u64, end: u64) -> u64
    requires some { 1 ≤ stages }
    requires within { number ≤ stages }
    ensures { result ≡ steps.aim stages number tick end }
{
    let before = u128::from(tick) * u128::from(stages - number);
    let after = u128::from(end) * u128::from(number);
    ((before + after) / u128::from(stages)) as u64
}

/// Where each barline stands after stage `number`.
fn aims(
    alloc: Global,
    stages: u64,
    number: u64,
    ticks: &[u64],
    goal: &[u64],
) -> Result<Vec<u64>, AllocError>
    requires some { 1 ≤ stages }
    requires within { number ≤ stages }
    ensures { IfOk result (λ v. v.items ≡ steps.aims stages number ticks.now goal.now) }
{
    let count = ticks.len().min(goal.len());
    let mut aims = Vec::with_capacity(alloc, count)?;
    'barlines: for place in 0..count {
        aims.push(aim(stages, number, ticks[place], goal[place]))?;
    }
    Ok(aims)
}

/// Appends the lines for the barlines that move later, from the last one down.
fn push_later(script: &mut Vec<Edit>, ticks: &[u64], aims: &[u64]) -> Result<(), AllocError>
    requires { length ticks.now < 2 ^ 32 }
    ensures { OnOk result (script.new.items ≡ script.old.items
        ++ map steps.shift_line (reverse (filter steps.is_later (steps.shifts 0 ticks.now aims.now)))) }
{
    let count = ticks.len().min(aims.len());
    'barlines: for number in (0..count).rev() {
        if ticks[number] < aims[number] {
            script.push(Edit::Barline {
                bar: number as u32,
                tick: aims[number],
            })?;
        }
    }
    Ok(())
}

/// Appends the lines for the barlines that move earlier, from the first one up.
fn push_earlier(script: &mut Vec<Edit>, ticks: &[u64], aims: &[u64]) -> Result<(), AllocError>
    requires { length ticks.now < 2 ^ 32 }
    ensures { OnOk result (script.new.items ≡ script.old.items
        ++ map steps.shift_line (filter steps.is_earlier (steps.shifts 0 ticks.now aims.now))) }
{
    let count = ticks.len().min(aims.len());
    'barlines: for number in 0..count {
        if aims[number] < ticks[number] {
            script.push(Edit::Barline {
                bar: number as u32,
                tick: aims[number],
            })?;
        }
    }
    Ok(())
}

/// Appends the lines of all stages.
pub fn push_stages(
    alloc: Global,
    script: &mut Vec<Edit>,
    pace: u64,
    ticks: &[u64],
    goal: &[u64],
) -> Result<(), AllocError>
    requires some { 1 ≤ pace }
    requires few { length ticks.now < 2 ^ 32 }
    ensures { OnOk result (script.new.items ≡ script.old.items
        ++ steps.all_stages (steps.stage_count pace ticks.now goal.now) ticks.now goal.now) }
{
    let stages = stage_count(pace, ticks, goal);
    'stages: for number in 0..stages {
        let before = aims(alloc, stages, number, ticks, goal)?;
        let after = aims(alloc, stages, number + 1, ticks, goal)?;
        push_later(script, before.as_slice(), after.as_slice())?;
        push_earlier(script, before.as_slice(), after.as_slice())?;
    }
    Ok(())
}
