ghost use Rattle.performance_load.specs.Taking.{AreMarksUpTo};
ghost use Rattle.performance_prepare.specs.Shift as shifts;
ghost use Rattle.performance_prepare.specs.Shift.{IsShift, latest_mark};
ghost use Rattle.rhythm_base.specs.declared.limits.TheConstants.{LATEST_EVENT};
ghost use Rattle.note_list.specs.Pairing.{IsPlayed};
ghost use Rattle.std.specs.Prelude.{◌≡◌, ◌≤◌, All, IfOk, map};

use crate::prepare_fault::PrepareFault;
use performance_load::{Take, last_end};
use rhythm_base::{KeyMark, LATEST_EVENT, Note, Signature, Tempo};
use std::alloc::{AllocError, Global};

/// Where ticks come to stand: so many times as late, and then so many ticks later and so many earlier.
#[derive(Clone, Copy)]
pub struct Shift {
    pub times: u64,
    pub later: u64,
    pub earlier: u64,
}

impl Shift {
    /// The place of a tick, not before tick 0.
    fn tick(self, tick: u64) -> u64
        requires shift { IsShift self }
        requires tick { tick ≤ latest_mark }
        ensures { result ≡ shifts.shifted self tick }
    {
        (tick * self.times + self.later).saturating_sub(self.earlier)
    }

    /// The place of a change: what is at tick 0 stays there.
    fn mark(self, tick: u64) -> u64
        requires shift { IsShift self }
        requires tick { tick ≤ latest_mark }
        ensures { result ≡ shifts.shifted_mark self tick }
    {
        if tick == 0 { 0 } else { self.tick(tick) }
    }

    /// The notes at their places.
    fn notes(self, alloc: Global, notes: &[Note]) -> Result<Vec<Note>, AllocError>
        requires shift { IsShift self }
        requires played { All (IsPlayed LATEST_EVENT) notes.now }
        ensures { IfOk result (λ v. v.items ≡ map (shifts.shifted_note self) notes.now) }
    {
        let mut shifted = Vec::with_capacity(alloc, notes.len())?;
        for note in notes {
            shifted.push(Note {
                onset: self.tick(note.onset),
                end: self.tick(note.end),
                ..*note
            })?;
        }
        Ok(shifted)
    }

    /// The tempos at their places.
    fn tempos(self, alloc: Global, tempos: &[Tempo]) -> Result<Vec<Tempo>, AllocError>
        requires shift { IsShift self }
        requires ticks { All (λ x. x.tick ≤ latest_mark) tempos.now }
        ensures { IfOk result (λ v. v.items ≡ map (shifts.shifted_tempo self) tempos.now) }
    {
        let mut shifted = Vec::with_capacity(alloc, tempos.len())?;
        for tempo in tempos {
            shifted.push(Tempo {
                tick: self.mark(tempo.tick),
                ..*tempo
            })?;
        }
        Ok(shifted)
    }

    /// The keys at their places.
    fn key_marks(self, alloc: Global, marks: &[KeyMark]) -> Result<Vec<KeyMark>, AllocError>
        requires shift { IsShift self }
        requires ticks { All (λ x. x.tick ≤ latest_mark) marks.now }
        ensures { IfOk result (λ v. v.items ≡ map (shifts.shifted_key_mark self) marks.now) }
    {
        let mut shifted = Vec::with_capacity(alloc, marks.len())?;
        for mark in marks {
            shifted.push(KeyMark {
                tick: self.mark(mark.tick),
                ..*mark
            })?;
        }
        Ok(shifted)
    }

    /// The signatures at their places.
    fn signatures(
        self,
        alloc: Global,
        signatures: &[Signature],
    ) -> Result<Vec<Signature>, AllocError>
        requires shift { IsShift self }
        requires ticks { All (λ x. x.tick ≤ latest_mark) signatures.now }
        ensures { IfOk result (λ v. v.items ≡ map (shifts.shifted_signature self) signatures.now) }
    {
        let mut shifted = Vec::with_capacity(alloc, signatures.len())?;
        for signature in signatures {
            shifted.push(Signature {
                tick: self.mark(signature.tick),
                ..*signature
            })?;
        }
        Ok(shifted)
    }

    /// The take with all notes and changes at their places.
    pub fn take(self, alloc: Global, take: &Take) -> Result<Take, AllocError>
        requires shift { IsShift self }
        requires played { All (IsPlayed LATEST_EVENT) take.now.notes }
        requires marks { AreMarksUpTo latest_mark take.now }
        ensures { IfOk result (λ t. t ≡ shifts.shifted_take self take.now) }
    {
        Ok(Take {
            division: take.division,
            notes: self.notes(alloc, &take.notes)?,
            tempos: self.tempos(alloc, &take.tempos)?,
            key_marks: self.key_marks(alloc, &take.key_marks)?,
            signatures: self.signatures(alloc, &take.signatures)?,
        })
    }
}

/// The take itself, unless a note of it ends too late.
pub fn unless_late(take: Take) -> Result<Take, PrepareFault>
    ensures { result ≡ shifts.unless_late take }
{
    let tick = last_end(&take.notes);
    if tick > LATEST_EVENT {
        return Err(PrepareFault::TooLate { tick });
    }
    Ok(take)
}
