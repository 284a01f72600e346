ghost use Rattle.rhythm_app.specs.Counting.{IsOfMidi};
ghost use Rattle.performance_load.specs.Taking.{AreMarksUpTo, IsTakeFormed};
ghost use Rattle.performance_prepare.specs.Ranges.{AreInRange};
ghost use Rattle.rhythm_app.specs.Outcome.{IsLoading, IsPlaying, IsPreparing, IsTakeLoading, IsTaking, load_stop, note_stop};
ghost use Rattle.rhythm_app.specs.Stages.{Follows, IsEarly, IsOfContent};
ghost use Rattle.rhythm_base.specs.declared.limits.TheConstants.{LATEST_EVENT, MOST_NOTES};
ghost use Rattle.smf_reader.specs.Ranges.{IsPlayedFile};
ghost use Rattle.std.specs.Prelude.{◌≡◌, ◌≤◌, IfErr, IfOk, length};

use crate::stop::Stop;
use note_list::NoteFault;
use performance_load::{LoadFault, Take, load, load_take, take};
use performance_prepare::{Options, PrepareFault, prepared};
use rhythm_base::{BarFault, Performance};
use smf_reader::Smf;
use std::alloc::Global;

/// A fault of loading as a stop.
fn load_stop(fault: LoadFault) -> Stop
    ensures { result ≡ load_stop fault }
{
    match fault {
        LoadFault::Notes(NoteFault::NoNotes) => Stop::NoNotes,
        LoadFault::Notes(NoteFault::TooManyNotes { count }) => Stop::TooManyNotes { count },
        LoadFault::Bars(BarFault::TooManyBars { start }) => Stop::TooManyBars { start },
        LoadFault::Bars(BarFault::BadSignature { num, dd }) => Stop::BadSignature { num, dd },
        LoadFault::Bars(BarFault::UnevenBar { bar, num, den }) => {
            Stop::UnevenBar { bar, num, den }
        }
        LoadFault::Notes(NoteFault::Memory)
        | LoadFault::Bars(BarFault::Memory)
        | LoadFault::Memory => Stop::Memory,
    }
}

/// The performance that the file says.
pub fn performance_of(alloc: Global, smf: &Smf) -> Result<Performance, Stop>
    requires { IsPlayedFile smf.now }
    ensures tests { Follows (IsLoading smf.now) result }
    ensures few_notes { IfOk result (λ p. length p.notes ≤ MOST_NOTES) }
    ensures own { IfErr result IsOfMidi }
    ensures early { IfErr result IsEarly }
    ensures content { IfErr result IsOfContent }
{
    match load(alloc, smf) {
        Ok(performance) => Ok(performance),
        Err(fault) => Err(load_stop(fault)),
    }
}

/// A fault of the notes of a file as a stop.
fn note_stop(fault: NoteFault) -> Stop
    ensures { result ≡ note_stop fault }
{
    match fault {
        NoteFault::NoNotes => Stop::NoNotes,
        NoteFault::TooManyNotes { count } => Stop::TooManyNotes { count },
        NoteFault::Memory => Stop::Memory,
    }
}

/// The take that the file says.
fn take_of(alloc: Global, smf: &Smf) -> Result<Take, Stop>
    requires { IsPlayedFile smf.now }
    ensures tests { Follows (IsTaking smf.now) result }
    ensures formed { IfOk result IsTakeFormed }
    ensures marks { IfOk result (AreMarksUpTo LATEST_EVENT) }
    ensures early { IfErr result IsEarly }
    ensures content { IfErr result IsOfContent }
{
    match take(alloc, smf) {
        Ok(take) => Ok(take),
        Err(fault) => Err(note_stop(fault)),
    }
}

/// The take as it is prepared.
fn prepared_of(alloc: Global, options: &Options, take: Take) -> Result<Take, Stop>
    requires range { AreInRange options.now }
    requires formed { IsTakeFormed take }
    requires marks { AreMarksUpTo LATEST_EVENT take }
    ensures tests { Follows (IsPreparing options.now take) result }
    ensures formed { IfOk result IsTakeFormed }
    ensures early { IfErr result IsEarly }
    ensures content { IfErr result IsOfContent }
{
    match prepared(alloc, options, take) {
        Ok(take) => Ok(take),
        Err(PrepareFault::Memory) => Err(Stop::Memory),
        Err(fault) => Err(Stop::Unprepared(fault)),
    }
}

/// The performance of a take.
fn loaded_of(alloc: Global, take: Take) -> Result<Performance, Stop>
    requires { IsTakeFormed take }
    ensures tests { Follows (IsTakeLoading take) result }
    ensures few_notes { IfOk result (λ p. length p.notes ≤ MOST_NOTES) }
    ensures early { IfErr result IsEarly }
    ensures content { IfErr result IsOfContent }
{
    match load_take(alloc, take) {
        Ok(performance) => Ok(performance),
        Err(fault) => Err(load_stop(fault)),
    }
}

/// The performance that the file says, prepared by the options.
pub fn played_by(alloc: Global, options: &Options, smf: &Smf) -> Result<Performance, Stop>
    requires played { IsPlayedFile smf.now }
    requires range { AreInRange options.now }
    ensures tests { Follows (IsPlaying options.now smf.now) result }
    ensures few_notes { IfOk result (λ p. length p.notes ≤ MOST_NOTES) }
    ensures early { IfErr result IsEarly }
    ensures content { IfErr result IsOfContent }
{
    let taken = take_of(alloc, smf)?;
    let take = prepared_of(alloc, options, taken)?;
    loaded_of(alloc, take)
}
