ghost use Rattle.performance_load.specs.Loading.{Loads};
ghost use Rattle.performance_load.specs.Taking.{IsTakeFormed, LoadsTake};
ghost use Rattle.smf_reader.specs.Ranges.{IsPlayedFile};

use crate::channels::{channels_of, last_end, last_onset};
use crate::load_fault::LoadFault;
use crate::played::Take;
use crate::taking::take;
use rhythm_base::{Notes, Performance};
use smf_reader::Smf;
use std::alloc::Global;
use tempo_map::lay_bars;

/// The performance of a take, without pins.
pub fn load_take(alloc: Global, take: Take) -> Result<Performance, LoadFault>
    requires { IsTakeFormed take }
    ensures { LoadsTake take result }
{
    let laid = lay_bars(
        alloc,
        take.division,
        &take.signatures,
        last_onset(&take.notes),
        last_end(&take.notes),
    )?;
    let channels = channels_of(alloc, &take.notes)?;
    let notes = Notes::new(alloc, &take.notes)?;
    let performance = Performance::make(
        take.division,
        take.tempos,
        take.key_marks,
        laid.bars,
        laid.last,
        channels,
        notes,
        Vec::new(alloc),
    )?;
    Ok(performance)
}

/// The performance that the file says, without pins.
pub fn load(alloc: Global, smf: &Smf) -> Result<Performance, LoadFault>
    requires { IsPlayedFile smf.now }
    ensures { Loads smf.now result }
{
    let played = take(alloc, smf)?;
    load_take(alloc, played)
}
