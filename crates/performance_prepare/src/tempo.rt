ghost use Rattle.performance_load.specs.Taking.{AreMarksUpTo, IsTakeFormed};
ghost use Rattle.performance_prepare.specs.Outcome.{Answers};
ghost use Rattle.performance_prepare.specs.Ranges.{IsMicros, IsPace};
ghost use Rattle.performance_prepare.specs.Tempo as paces;
ghost use Rattle.rhythm_base.specs.Performance.{IsTempo};
ghost use Rattle.rhythm_base.specs.Time as times;
ghost use Rattle.rhythm_base.specs.declared.limits.TheConstants.{LATEST_EVENT};
ghost use Rattle.std.specs.Prelude.{◌≡◌, ◌≤◌, All, IfOk};

use crate::division::Division;
use crate::prepare_fault::PrepareFault;
use crate::shift::{Shift, unless_late};
use performance_load::Take;
use rhythm_base::{MOST_DIVISION, SLOWEST_TEMPO, Signature, Tempo};
use std::alloc::{AllocError, Global};

/// The tempo where there is no change yet, in microseconds of a quarter note.
const USUAL: u32 = 500_000;

/// The most ticks of a quarter that is made finer.
const FINEST: u64 = 8_192;

/// How many times finer ticks are made: a power of two, at most 8,192.
fn fineness(division: Division) -> u64
    ensures { result ≡ paces.fineness division }
{
    let ticks = division.ticks();
    let mut times = 1;
    for _doubling in 0..13u8 {
        if 2 * times * ticks > FINEST {
            return times;
        }
        times *= 2;
    }
    times
}

/// The tempo in force at tick 0, in microseconds of a quarter note.
fn first_tempo(tempos: &[Tempo]) -> u32
    requires { All IsTempo tempos.now }
    ensures tempo { result ≡ times.tempo_at tempos.now 0 }
    ensures range { IsMicros result }
{
    let mut found = USUAL;
    for tempo in tempos {
        if tempo.tick == 0 {
            found = tempo.micros;
        }
    }
    found
}

/// The least number of ticks of a quarter that makes a bar of the signature whole, at most 16.
fn quarter_parts(signature: &Signature) -> u64
    ensures { result ≡ paces.quarter_parts signature.now }
{
    let num = u64::from(signature.num);
    if num == 0 || num > 64 || signature.dd > 6 {
        return 1;
    }
    let beat = 1u64 << signature.dd;
    if 4 * num % beat == 0 {
        1
    } else if 8 * num % beat == 0 {
        2
    } else if 16 * num % beat == 0 {
        4
    } else if 32 * num % beat == 0 {
        8
    } else {
        16
    }
}

/// The least number of ticks of a quarter that makes the bars of all signatures whole, at most 16.
fn bar_parts(signatures: &[Signature]) -> u64
    ensures parts { result ≡ paces.bar_parts signatures.now }
    ensures some { 1 ≤ result }
    ensures few { result ≤ 16 }
{
    let mut most = 1;
    for signature in signatures {
        most = most.max(quarter_parts(signature));
    }
    most
}

/// The first number over the second, to the nearest whole number, halves up.
fn rounded(over: u64, under: u64) -> u64
    requires { paces.IsRatio over under }
    ensures { result ≡ paces.rounded over under }
{
    (2 * over + under) / (2 * under)
}

/// Ticks of a quarter where so many of them last a minute in a tempo, of quarters of `old` ticks: a multiple of what makes the bars
/// of all signatures whole.
fn new_division(old: Division, signatures: &[Signature], quarters: u16, first: u32) -> u64
    requires quarters { IsPace quarters }
    requires first { IsMicros first }
    ensures { result ≡ paces.division_of old (paces.bar_parts signatures.now) quarters first }
{
    let parts = bar_parts(signatures);
    let over = old.ticks() * 60_000_000;
    let under = parts * u64::from(quarters) * u64::from(first);
    parts * rounded(over, under)
}

/// A tempo in proportion, where a quarter has `new` ticks in place of `old`.
fn scaled(new: u16, old: Division, micros: u32) -> u32
    ensures { result ≡ paces.scaled new old micros }
{
    let nearest = rounded(u64::from(micros) * u64::from(new), old.ticks());
    nearest.max(1).min(u64::from(SLOWEST_TEMPO)) as u32
}

/// The tempo from the beginning on, and the later ones.
fn scaled_tempos(
    alloc: Global,
    new: u16,
    old: Division,
    first: u32,
    tempos: &[Tempo],
) -> Result<Vec<Tempo>, AllocError>
    ensures { IfOk result (λ v. v.items ≡ paces.scaled_tempos new old first tempos.now) }
{
    let mut list = Vec::new(alloc);
    list.push(Tempo {
        tick: 0,
        micros: scaled(new, old, first),
    })?;
    for tempo in tempos {
        if tempo.tick != 0 {
            list.push(Tempo {
                micros: scaled(new, old, tempo.micros),
                ..*tempo
            })?;
        }
    }
    Ok(list)
}

/// The take with quarters of `new` ticks in place of `old`.
fn retimed(
    alloc: Global,
    new: u16,
    old: Division,
    first: u32,
    take: Take,
) -> Result<Take, AllocError>
    ensures { IfOk result (λ t. t ≡ paces.retimed new old first take) }
{
    let tempos = scaled_tempos(alloc, new, old, first, &take.tempos)?;
    Ok(Take {
        division: new,
        tempos,
        ..take
    })
}

/// The take where so many quarters a minute were played in the tempo at tick 0. What lasted a second goes on lasting a second.
pub fn with_tempo(alloc: Global, quarters: u16, take: Take) -> Result<Take, PrepareFault>
    requires quarters { IsPace quarters }
    requires formed { IsTakeFormed take }
    requires marks { AreMarksUpTo LATEST_EVENT take }
    ensures { Answers (paces.with_tempo quarters take) result }
{
    let coarse = Division::of(&take);
    let times = fineness(coarse);
    let old = coarse.finer(times);
    let first = first_tempo(&take.tempos);
    let division = new_division(old, &take.signatures, quarters, first);
    if division == 0 || division > u64::from(MOST_DIVISION) {
        return Err(PrepareFault::WrongDivision { division });
    }
    let shift = Shift {
        times,
        later: 0,
        earlier: 0,
    };
    let shifted = shift.take(alloc, &take)?;
    match unless_late(shifted) {
        Err(fault) => Err(fault),
        Ok(fine) => Ok(retimed(alloc, division as u16, old, first, fine)?),
    }
}
