ghost use Rattle.edit_laws.specs.Edits.{performance_after};
ghost use Rattle.edit_session.specs.Spans.{IsKnown};
ghost use Rattle.edit_session.specs.Touched.{LeavesBar, LeavesPin, touched_from, touched_up_to};
ghost use Rattle.rhythm_base.specs.EditRanges.{IsEditInRange};
ghost use Rattle.rhythm_base.specs.Performance.{IsWellFormed};
ghost use Rattle.std.specs.Prelude.{◌≡◌, ◌⊎◌, ◌<◌, ◌≤◌, ℕ, length};

use rhythm_base::{Edit, LATEST_TICK, Performance};

/// The performance before an edit, and what of it the edit leaves: the notes that begin before a tick `low`, or at a tick `high` or
/// after it, and bars and pins outside of the bars from one up to another.
#[derive(Clone, Copy)]
pub struct Known<'a> {
    pub before: &'a Performance,
    pub low: u64,
    pub high: u64,
    pub first_bar: usize,
    pub bar_end: usize,
}

/// The bars, from one up to another, outside of which an edit leaves bars and pins.
fn touched_bars(after: &Performance, edit: &Edit) -> (usize, usize)
    ensures first { result.0 ≤ length after.now.bars }
    ensures end { result.1 ≤ length after.now.bars }
    ensures bars { (bar : ℕ) → bar < length after.now.bars → (bar < result.0) ⊎ (result.1 ≤ bar)
        → LeavesBar edit.now (length after.now.bars) bar }
    ensures pins { (channel bar : ℕ) → bar < length after.now.bars → (bar < result.0) ⊎ (result.1 ≤ bar) → LeavesPin edit.now channel bar }
{
    let count = after.bars().len();
    match edit {
        Edit::Add { .. } | Edit::Drop { .. } | Edit::Move { .. } | Edit::DropBar => (count, 0),
        Edit::Pin { bar, .. } | Edit::Unpin { bar, .. } => {
            let bar = *bar as usize;
            (bar.min(count), bar.saturating_add(1).min(count))
        }
        Edit::Barline { bar, .. } => {
            let bar = *bar as usize;
            (
                bar.saturating_sub(1).min(count),
                bar.saturating_add(1).min(count),
            )
        }
        Edit::AddBar => (count.saturating_sub(1), count),
    }
}

/// The ticks, from one up to another, outside of which an edit leaves the notes that begin there.
fn touched_ticks(edit: &Edit) -> (u64, u64)
    requires { IsEditInRange edit.now }
    ensures from { result.0 ≡ touched_from edit.now }
    ensures up_to { result.1 ≡ touched_up_to edit.now }
{
    match edit {
        Edit::Add { onset, .. } | Edit::Drop { onset, .. } => (*onset, *onset + 1),
        Edit::Move { onset, to, .. } => (*onset.min(to), *onset.max(to) + 1),
        Edit::Barline { .. }
        | Edit::Pin { .. }
        | Edit::Unpin { .. }
        | Edit::AddBar
        | Edit::DropBar => (LATEST_TICK, 0),
    }
}

/// What is known of the performance before an edit.
pub fn known_of<'a>(before: &'a Performance, after: &Performance, edit: &Edit) -> Known<'a>
    requires formed { IsWellFormed before.now }
    requires range { IsEditInRange edit.now }
    requires after { after.now ≡ performance_after before.now edit.now }
    ensures before { result.before.now ≡ before.entry.now }
    ensures known { IsKnown before.entry.now after.now result.low result.high result.first_bar result.bar_end }
{
    let (low, high) = touched_ticks(edit);
    let (first_bar, bar_end) = touched_bars(after, edit);
    Known {
        before,
        low,
        high,
        first_bar,
        bar_end,
    }
}
