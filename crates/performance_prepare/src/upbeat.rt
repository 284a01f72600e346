ghost use Rattle.performance_load.specs.Taking.{AreMarksUpTo, IsTakeFormed};
ghost use Rattle.performance_prepare.specs.Outcome.{Answers};
ghost use Rattle.performance_prepare.specs.Ranges.{IsFraction};
ghost use Rattle.performance_prepare.specs.Shift.{latest_mark};
ghost use Rattle.performance_prepare.specs.Upbeat as upbeats;
ghost use Rattle.rhythm_base.specs.Bars as laying;
ghost use Rattle.rhythm_base.specs.Lists.{least_of};
ghost use Rattle.std.specs.Prelude.{◌≡◌, ◌≤◌, map, min};
ghost use Rattle.std.specs.List.{reduce};

use crate::division::Division;
use crate::options::Fraction;
use crate::prepare_fault::PrepareFault;
use crate::shift::{Shift, unless_late};
use performance_load::Take;
use rhythm_base::{Note, Signature};
use std::alloc::Global;
use std::marker::Model;

/// The beats of the signature in force at tick 0, and the power of two that is the value of a beat.
fn first_signature(signatures: &[Signature]) -> (u8, u8)
    ensures { result ≡ laying.signature_at signatures.now 0 }
{
    let mut found = (4, 2);
    for signature in signatures {
        if signature.tick == 0 {
            found = (signature.num, signature.dd);
        }
    }
    found
}

/// The least onset, where there is a note.
fn least_onset(notes: &[Note]) -> Option<u64>
    ensures { result ≡ reduce min (map (λ n. n.onset) notes.now) }
{
    notes.iter().map(|note| note.onset).min()
}

/// The least onset, 0 without notes.
fn first_onset(notes: &[Note]) -> u64
    ensures { result ≡ least_of (map (λ n. n.onset) notes.now) }
{
    match least_onset(notes) {
        Some(onset) => onset,
        None => 0,
    }
}

/// How many ticks a bar has: 1 to 100,000,000. A contract sees it as the number.
#[derive(Clone, Copy)]
struct BarTicks {
    ticks: u64,
}

impl Model for BarTicks {
    ghost use Rattle.std.specs.Prelude.{ℕ, ◌≤◌};

    ghost Value = { ℕ };

    ghost view = { λ b. b.ticks };

    ghost invariant = { λ b. (1 ≤ b.ticks) × (b.ticks ≤ 100000000) };

    ghost inverse = { λ n. record { ticks = n } };
}

impl BarTicks {
    /// Those of a bar of the signature, where it is in range and they are a whole number.
    fn of(division: Division, num: u8, dd: u8) -> Option<BarTicks>
        ensures { result ≡ upbeats.ticks_of_bar division (num, dd) }
    {
        if num == 0 || num > 64 || dd > 6 {
            return None;
        }
        let over = 4 * division.ticks() * u64::from(num);
        let under = 1u64 << dd;
        if over % under == 0 {
            Some(BarTicks {
                ticks: over / under,
            })
        } else {
            None
        }
    }

    /// The number.
    fn count(self) -> u64
        ensures is { result ≡ self }
        ensures some { 1 ≤ result }
        ensures near { result ≤ 100000000 }
    {
        self.ticks
    }
}

/// The take whose first note begins so long before a barline, of bars of so many ticks.
fn placed(alloc: Global, bar: BarTicks, upbeat: Fraction, take: &Take) -> Result<Take, PrepareFault>
    requires upbeat { IsFraction upbeat }
    requires formed { IsTakeFormed take.now }
    requires marks { AreMarksUpTo latest_mark take.now }
    ensures { Answers (upbeats.placed bar upbeat take.now) result }
{
    let bar = bar.count();
    let over = 4 * u64::from(take.division) * u64::from(upbeat.num);
    let under = u64::from(upbeat.den);
    let ticks = over / under;
    if over % under != 0 || bar < ticks {
        return Err(PrepareFault::BadUpbeat {
            num: upbeat.num,
            den: upbeat.den,
        });
    }
    let shift = Shift {
        times: 1,
        later: (bar - ticks) % bar,
        earlier: first_onset(&take.notes),
    };
    let shifted = shift.take(alloc, take)?;
    unless_late(shifted)
}

/// The take whose first note begins so long before a barline. The bar is that in force at tick 0; where it cannot be laid, the
/// take stays as it is.
pub fn with_upbeat(alloc: Global, upbeat: Fraction, take: Take) -> Result<Take, PrepareFault>
    requires upbeat { IsFraction upbeat }
    requires formed { IsTakeFormed take }
    requires marks { AreMarksUpTo latest_mark take }
    ensures { Answers (upbeats.with_upbeat upbeat take) result }
{
    let (num, dd) = first_signature(&take.signatures);
    match BarTicks::of(Division::of(&take), num, dd) {
        None => Ok(take),
        Some(bar) => placed(alloc, bar, upbeat, &take),
    }
}
