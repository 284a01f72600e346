ghost use Rattle.rhythm_base.specs.declared.limits.TheConstants.{LATEST_TICK};
ghost use Rattle.std.specs.Prelude.{◌≡◌, ◌≤◌, IfOk, map};
ghost use Rattle.std.specs.List.Sorted.{IsNonDecreasing};
ghost use Rattle.rhythm_base.specs.Time as times;
ghost use Rattle.tempo_map.specs.TempoMap.{AreElapsed, TempoMap};

use crate::in_force::{key_in_force, tempo_in_force, tempos_up_to};
use rhythm_base::{KeyMark, LATEST_TICK, Tempo};
use std::alloc::{AllocError, Global};
use std::marker::Model;

/// The tempo where there is no change yet, in microseconds of a quarter note.
const USUAL: u32 = 500_000;

/// The elapsed time, the tempo and the key at each tick of a file, by its changes, which are lent. It keeps the elapsed time at each
/// change of tempo, so that the time at a tick is found without a sum over those before it.
#[derive(Drop)]
pub struct TempoMap<'a> {
    tempos: &'a [Tempo],
    elapsed: Vec<u64>,
    key_marks: &'a [KeyMark],
}

impl<'a> Model for TempoMap<'a> {
    ghost use Rattle.tempo_map.specs.TempoMap.{IsTempoMap, TempoMap};

    ghost Value = { TempoMap };

    ghost view = { λ m. record { tempos = m.tempos.now; key_marks = m.key_marks.now } };

    ghost invariant = { λ m. IsTempoMap m.tempos.now m.elapsed.items m.key_marks.now };
}

/// The elapsed time at each change of tempo that is no later than the greatest tick of a score.
fn elapsed_of(alloc: Global, tempos: &[Tempo]) -> Result<Vec<u64>, AllocError>
    requires { IsNonDecreasing (map (λ t. t.tick) tempos.now) }
    ensures { IfOk result (λ v. AreElapsed tempos.now v.items) }
{
    let mut elapsed = Vec::with_capacity(alloc, tempos.len())?;
    let mut time = 0;
    let mut last = Tempo {
        tick: 0,
        micros: USUAL,
    };
    for tempo in tempos {
        if tempo.tick > LATEST_TICK {
            return Ok(elapsed);
        }
        time += (tempo.tick - last.tick) * u64::from(last.micros);
        last = *tempo;
        elapsed.push(time)?;
    }
    Ok(elapsed)
}

/// The elapsed time at a tick, counted on from the last change of tempo.
fn time_at(tempos: &[Tempo], elapsed: &[u64], tick: u64) -> u64
    requires order { IsNonDecreasing (map (λ t. t.tick) tempos.now) }
    requires elapsed { AreElapsed tempos.now elapsed.now }
    requires tick { tick ≤ LATEST_TICK }
    ensures { result ≡ times.time tempos.now tick }
{
    let count = tempos_up_to(tempos, tick);
    if count == 0 {
        return tick * u64::from(USUAL);
    }
    let tempo = tempos[count - 1];
    elapsed[count - 1] + (tick - tempo.tick) * u64::from(tempo.micros)
}

impl<'a> TempoMap<'a> {
    /// The map of these changes, which stand by tick; of changes at one tick the last counts.
    pub fn new(
        alloc: Global,
        tempos: &'a [Tempo],
        key_marks: &'a [KeyMark],
    ) -> Result<TempoMap<'a>, AllocError>
        requires tempos { IsNonDecreasing (map (λ t. t.tick) tempos.now) }
        requires key_marks { IsNonDecreasing (map (λ k. k.tick) key_marks.now) }
        ensures { IfOk result (λ m. m ≡ record { tempos = tempos.entry.now; key_marks = key_marks.entry.now }) }
    {
        let elapsed = elapsed_of(alloc, tempos)?;
        Ok(TempoMap {
            tempos,
            elapsed,
            key_marks,
        })
    }

    /// The elapsed time at a tick, in microseconds over the division: divided by the ticks of a quarter note it is
    /// microseconds.
    pub fn time(&self, tick: u64) -> u64
        requires { tick ≤ LATEST_TICK }
        ensures { result ≡ times.time self.now.tempos tick }
    {
        time_at(self.tempos, self.elapsed.as_slice(), tick)
    }

    /// The tempo in force at a tick, in microseconds of a quarter note.
    pub fn tempo_at(&self, tick: u64) -> u32
        requires { tick ≤ LATEST_TICK }
        ensures { result ≡ times.tempo_at self.now.tempos tick }
    {
        match tempo_in_force(self.tempos, tick) {
            Some(tempo) => tempo.micros,
            None => USUAL,
        }
    }

    /// The key in force at a tick, as sharps where above 0 and flats where below, and none before the first change.
    pub fn key_at(&self, tick: u64) -> Option<i8>
        requires { tick ≤ LATEST_TICK }
        ensures { result ≡ times.key_at self.now.key_marks tick }
    {
        key_in_force(self.key_marks, tick).map(|mark| mark.sf)
    }
}
