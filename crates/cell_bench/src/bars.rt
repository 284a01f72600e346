ghost use Rattle.rhythm_base.specs.BarInput.{IsInner};
ghost use Rattle.rhythm_base.specs.Line.{Rising};
ghost use Rattle.std.specs.Prelude.{◌≡◌, ◌≤◌, ◌<◌, ℕ, All, IfOk, IfSome, IsTrue};

use rhythm_base::{BarInput, Inner, Shape};
use std::alloc::{AllocError, Global};

/// The ticks of a bar of 4/4 at 480 to a quarter note.
const LENGTH: u32 = 1920;

/// The chord of a number among so many: they are evenly spread, each is late by up to a quarter of the room from one
/// to the next, and it lasts for one to three quarters of that room.
fn chord(number: u32, room: u32, place: u32) -> Inner {
    let quarter = room / 4;
    let late = number % 1000 * 5 % (quarter + 1);
    let onset = place as u64 + late as u64;
    Inner {
        onset,
        end: onset + (1 + number as u64 % 3) * quarter as u64,
    }
}

/// So many chords, at most as many as the bar has ticks.
fn chords_of(alloc: Global, count: u32) -> Result<Vec<Inner>, AllocError> {
    let count = count.min(LENGTH);
    let mut chords = Vec::new(alloc);
    for number in 0..count {
        let place = number * LENGTH / count;
        chords.push(chord(number, LENGTH / count, place))?;
    }
    Ok(chords)
}

/// Whether the onsets rise from a tick on.
fn are_rising(low: u64, chords: &[Inner]) -> bool
    ensures { IsTrue result → Rising low chords.now }
{
    match chords {
        [] => true,
        [chord, chords @ ..] => {
            low <= chord.onset && chord.onset < 2_000_000_000 && are_rising(chord.onset + 1, chords)
        }
    }
}

/// Whether the chords lie in a bar of so many ticks.
fn are_within(length: u64, chords: &[Inner]) -> bool
    ensures { IsTrue result → All (IsInner length) chords.now }
{
    for chord in chords {
        if chord.onset >= length {
            return false;
        }
        if chord.onset > chord.end {
            return false;
        }
        if chord.end > length {
            return false;
        }
    }
    true
}

/// A bar of 4/4 with these chords and this pin, with nothing carried into it; none where they are not in order or do not lie in it.
pub fn bar_with(resolution: u16, chords: Vec<Inner>, pin: Option<Shape>) -> Option<BarInput>
    ensures { IfSome result (λ b. b.resolution ≡ resolution) }
{
    let length = LENGTH as u64;
    if resolution >= 1
        && resolution <= 960
        && are_rising(0, chords.as_slice())
        && are_within(length, chords.as_slice())
    {
        Some(BarInput::make(0, resolution, 4, 4, length, chords, 0, pin))
    } else {
        None
    }
}

/// A bar of 4/4 with so many chords and this pin, with nothing carried into it.
pub fn bar_of(
    alloc: Global,
    resolution: u16,
    count: u32,
    pin: Option<Shape>,
) -> Result<Option<BarInput>, AllocError>
    ensures { IfOk result (λ o. IfSome o (λ b. b.resolution ≡ resolution)) }
{
    let chords = chords_of(alloc, count)?;
    Ok(bar_with(resolution, chords, pin))
}

/// So many bars like that, without a pin.
pub fn bars_of(
    alloc: Global,
    resolution: u16,
    chords: u32,
    count: u32,
) -> Result<Option<Vec<BarInput>>, AllocError>
    ensures { IfOk result (λ o. IfSome o (λ v. All (λ b. b.resolution ≡ resolution) v.items)) }
{
    let mut bars = Vec::new(alloc);
    'bars: for _ in 0..count {
        let Some(bar) = bar_of(alloc, resolution, chords, None)? else {
            return Ok(None);
        };
        bars.push(bar)?;
    }
    Ok(Some(bars))
}
