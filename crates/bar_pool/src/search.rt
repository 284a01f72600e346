ghost use Rattle.bar_pool.specs.Pool.{RisesWithin};
ghost use Rattle.rhythm_base.specs.Counter.{risen};
ghost use Rattle.rhythm_base.specs.Lists.{Each};
ghost use Rattle.std.specs.Prelude.{◌≡◌, ◌<◌, All, IfOk, OnOk, length};

use crate::job::Job;
use least_cost::Steps;
use least_rows::Room;
use rhythm_base::Tag;
use rhythm_ports::{Gate, Means};
use std::alloc::AllocError;
use std::thread::Threads;

/// Passes the gate and builds what the job has for this number.
#[inline(always)]
pub fn build_searched<R: Threads + Sync, G: Gate + Sync, B: Tag, T: Drop, J: Job<T>>(
    means: &Means<'_, R, G>,
    job: &J,
    number: usize,
    room: &mut Room,
    builds: &mut Steps<B>,
) -> Result<T, AllocError>
    requires ready { J.ready job.now }
    requires within { number < J.count job.now }
    ensures built { IfOk result (J.built job.now number) }
    ensures builds { builds.new ≡ risen builds.old 1 }
{
    means.gate.pass(number as u64);
    job.build(builds.leave(), means.alloc, number, room)
}

/// Builds what the job has for these numbers, one after another.
pub fn build_in_turn<R: Threads + Sync, G: Gate + Sync, B: Tag, T: Drop, J: Job<T>>(
    means: &Means<'_, R, G>,
    job: &J,
    searched: &[usize],
    room: &mut Room,
    builds: &mut Steps<B>,
) -> Result<Vec<T>, AllocError>
    requires ready { J.ready job.now }
    requires within { All (λ n. n < J.count job.now) searched.now }
    ensures built { IfOk result (λ v. Each (J.built job.now) searched.now v.items) }
    ensures builds { OnOk result (builds.new ≡ risen builds.old (length searched.now)) }
    ensures most { RisesWithin builds.old builds.new (length searched.now) }
{
    let mut built = Vec::with_capacity(means.alloc, searched.len())?;
    'cells: for place in 0..searched.len() {
        built.push(build_searched(means, job, searched[place], room, builds)?)?;
    }
    Ok(built)
}
