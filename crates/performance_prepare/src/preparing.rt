ghost use Rattle.performance_load.specs.Taking.{AreMarksUpTo, IsTakeFormed};
ghost use Rattle.performance_prepare.specs.Drums as drums;
ghost use Rattle.performance_prepare.specs.Keying as keys;
ghost use Rattle.performance_prepare.specs.Meter as meters;
ghost use Rattle.performance_prepare.specs.Outcome.{Answers};
ghost use Rattle.performance_prepare.specs.Prepared as maps;
ghost use Rattle.performance_prepare.specs.Ranges.{AreInRange, IfGiven, IsFraction, IsKey, IsPace};
ghost use Rattle.performance_prepare.specs.Ready.{IsReady};
ghost use Rattle.performance_prepare.specs.Shift.{latest_mark};
ghost use Rattle.performance_prepare.specs.Split as splits;
ghost use Rattle.performance_prepare.specs.Strum as strums;
ghost use Rattle.performance_prepare.specs.Tempo as paces;
ghost use Rattle.performance_prepare.specs.Upbeat as upbeats;
ghost use Rattle.rhythm_base.specs.declared.limits.TheConstants.{LATEST_EVENT};
ghost use Rattle.std.specs.Prelude.{◌≡◌, IfOk};

use crate::drums::without_drums;
use crate::hands::with_hands;
use crate::keying::with_key;
use crate::meter::with_meter;
use crate::options::{Fraction, Options};
use crate::prepare_fault::PrepareFault;
use crate::split::with_split;
use crate::strum::with_strum;
use crate::tempo::with_tempo;
use crate::upbeat::with_upbeat;
use performance_load::Take;
use std::alloc::Global;

/// The take without drums, if it is told that they go.
fn told_drums(alloc: Global, no_drums: bool, take: Take) -> Result<Take, PrepareFault>
    requires { IsReady LATEST_EVENT take }
    ensures answer { Answers (maps.if_told drums.without_drums no_drums take) result }
    ensures ready { IfOk result (IsReady LATEST_EVENT) }
{
    if no_drums {
        without_drums(alloc, take)
    } else {
        Ok(take)
    }
}

/// The take that is split at the key, if one is told.
fn told_split(alloc: Global, split: Option<u8>, take: Take) -> Result<Take, PrepareFault>
    requires { IsReady LATEST_EVENT take }
    ensures answer { Answers (maps.given splits.with_split split take) result }
    ensures ready { IfOk result (IsReady LATEST_EVENT) }
{
    match split {
        None => Ok(take),
        Some(key) => with_split(alloc, key, take),
    }
}

/// How near each other notes of a group begin, in milliseconds from note to note, where no strum reaches over more.
const NEAR: u8 = 15;

/// How near each other notes of a group begin, where strums of so many milliseconds are told.
fn group_reach(strum: Option<u8>) -> u8
    ensures { result ≡ maps.group_reach strum }
{
    match strum {
        None => NEAR,
        Some(within) => within.max(NEAR),
    }
}

/// The take whose left hand has a channel of its own, if the channel of two hands is told.
fn told_hands(
    alloc: Global,
    hands: Option<u8>,
    strum: Option<u8>,
    take: Take,
) -> Result<Take, PrepareFault>
    requires { IsReady LATEST_EVENT take }
    ensures answer { Answers (maps.given (maps.handed_by strum) hands take) result }
    ensures ready { IfOk result (IsReady LATEST_EVENT) }
{
    match hands {
        None => Ok(take),
        Some(channel) => with_hands(alloc, channel, group_reach(strum), take),
    }
}

/// The take whose strums begin together, if their milliseconds are told.
fn told_strum(alloc: Global, strum: Option<u8>, take: Take) -> Result<Take, PrepareFault>
    requires { IsReady LATEST_EVENT take }
    ensures answer { Answers (maps.changed strums.with_strum strum take) result }
    ensures ready { IfOk result (IsReady LATEST_EVENT) }
{
    match strum {
        None => Ok(take),
        Some(within) => Ok(with_strum(alloc, within, take)?),
    }
}

/// The take of the meter, if one is told.
fn told_meter(alloc: Global, meter: Option<Fraction>, take: Take) -> Result<Take, PrepareFault>
    requires { IsReady LATEST_EVENT take }
    ensures answer { Answers (maps.changed meters.with_meter meter take) result }
    ensures ready { IfOk result (IsReady LATEST_EVENT) }
{
    match meter {
        None => Ok(take),
        Some(meter) => Ok(with_meter(alloc, meter, take)?),
    }
}

/// The take at so many quarters a minute, if they are told.
fn told_tempo(alloc: Global, tempo: Option<u16>, take: Take) -> Result<Take, PrepareFault>
    requires tempo { IfGiven tempo IsPace }
    requires ready { IsReady LATEST_EVENT take }
    ensures answer { Answers (maps.given paces.with_tempo tempo take) result }
    ensures ready { IfOk result (IsReady latest_mark) }
{
    match tempo {
        None => Ok(take),
        Some(quarters) => with_tempo(alloc, quarters, take),
    }
}

/// The take of the upbeat, if one is told.
fn told_upbeat(alloc: Global, upbeat: Option<Fraction>, take: Take) -> Result<Take, PrepareFault>
    requires upbeat { IfGiven upbeat IsFraction }
    requires ready { IsReady latest_mark take }
    ensures answer { Answers (maps.given upbeats.with_upbeat upbeat take) result }
    ensures formed { IfOk result IsTakeFormed }
{
    match upbeat {
        None => Ok(take),
        Some(upbeat) => with_upbeat(alloc, upbeat, take),
    }
}

/// The take of the key, if one is told.
fn told_key(alloc: Global, key: Option<i8>, take: Take) -> Result<Take, PrepareFault>
    requires key { IfGiven key IsKey }
    requires formed { IsTakeFormed take }
    ensures answer { Answers (maps.changed keys.with_key key take) result }
    ensures formed { IfOk result IsTakeFormed }
{
    match key {
        None => Ok(take),
        Some(sf) => Ok(with_key(alloc, sf, take)?),
    }
}

/// The take prepared by the options: drums, split, hands, strum, meter, tempo, upbeat and key, in this order. A fault is that of the
/// first map that has one.
pub fn prepared(alloc: Global, options: &Options, take: Take) -> Result<Take, PrepareFault>
    requires range { AreInRange options.now }
    requires formed { IsTakeFormed take }
    requires marks { AreMarksUpTo LATEST_EVENT take }
    ensures answer { Answers (maps.prepared options.now take) result }
    ensures formed { IfOk result IsTakeFormed }
{
    let pitched = told_drums(alloc, options.no_drums, take)?;
    let split = told_split(alloc, options.split, pitched)?;
    let handed = told_hands(alloc, options.hands, options.strum, split)?;
    let strummed = told_strum(alloc, options.strum, handed)?;
    let metered = told_meter(alloc, options.meter, strummed)?;
    let timed = told_tempo(alloc, options.tempo, metered)?;
    let placed = told_upbeat(alloc, options.upbeat, timed)?;
    told_key(alloc, options.key, placed)
}
