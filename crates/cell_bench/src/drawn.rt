ghost use Rattle.std.specs.Prelude.{◌≡◌, All, IfOk, IfSome};

use crate::bars::bar_with;
use rhythm_base::{BarInput, Inner};
use std::alloc::{AllocError, Global};

/// How the chords of a bar are drawn.
#[derive(Clone, Copy)]
pub enum Draw {
    /// Each beat plays nothing, one chord or two, by a draw: so are the bars of generated pieces, and these are the bars
    /// of the piece of number 7.
    Beats,
    /// A first draw says how many sixteenths of 16 begin a chord in the mean, and a draw for each whether it does: 0 to 16
    /// chords, each late by up to 20 ticks.
    Sixteenths,
}

/// The number that the draws start with.
const NUMBER: u32 = 7;

/// The stream of draws from which pieces are generated, by its last draw.
#[derive(Drop)]
struct Draws {
    last: u32,
}

impl Draws {
    /// The next draw, below 65,537.
    fn next(&mut self) -> u32 {
        self.last = ((75 * u64::from(self.last) + 74) % 65537) as u32;
        self.last
    }
}

/// The chord from a tick of its bar on, for so many ticks.
fn chord(onset: u32, length: u32) -> Inner {
    Inner {
        onset: u64::from(onset),
        end: u64::from(onset) + u64::from(length),
    }
}

/// Appends the chords of a beat, by its draw. The first beat of a bar plays at least one.
fn push_beat(chords: &mut Vec<Inner>, beat: u8, draw: u32) -> Result<(), AllocError> {
    let onset = 480 * u32::from(beat) + draw / 4 % 21;
    match draw % 4 {
        0 if beat > 0 => Ok(()),
        3 => chords.extend_from_slice(&[chord(onset, 180), chord(onset + 240, 180)]),
        _ => chords.extend_from_slice(&[chord(onset, 400)]),
    }
}

/// The chords of a bar whose beats are drawn.
fn beats(alloc: Global, draws: &mut Draws) -> Result<Vec<Inner>, AllocError> {
    let mut chords = Vec::new(alloc);
    for beat in 0..4u8 {
        push_beat(&mut chords, beat, draws.next())?;
    }
    Ok(chords)
}

/// The chords of a bar whose sixteenths are drawn.
fn sixteenths(alloc: Global, draws: &mut Draws) -> Result<Vec<Inner>, AllocError> {
    let most = draws.next() % 17;
    let mut chords = Vec::new(alloc);
    for sixteenth in 0..16u8 {
        let draw = draws.next();
        if draw % 16 < most {
            chords.push(chord(120 * u32::from(sixteenth) + draw / 16 % 21, 90))?;
        }
    }
    Ok(chords)
}

impl Draw {
    /// What a word says.
    pub fn named(name: &str) -> Option<Draw> {
        match name {
            "beats" => Some(Draw::Beats),
            "sixteenths" => Some(Draw::Sixteenths),
            _ => None,
        }
    }

    /// The chords of the next bar.
    fn chords(self, alloc: Global, draws: &mut Draws) -> Result<Vec<Inner>, AllocError> {
        match self {
            Draw::Beats => beats(alloc, draws),
            Draw::Sixteenths => sixteenths(alloc, draws),
        }
    }
}

/// So many bars of 4/4 whose chords are drawn.
pub fn drawn_bars(
    alloc: Global,
    resolution: u16,
    draw: Draw,
    count: u32,
) -> Result<Option<Vec<BarInput>>, AllocError>
    ensures { IfOk result (λ o. IfSome o (λ v. All (λ b. b.resolution ≡ resolution) v.items)) }
{
    let mut draws = Draws { last: NUMBER };
    let mut bars = Vec::new(alloc);
    'bars: for _ in 0..count {
        let chords = draw.chords(alloc, &mut draws)?;
        let Some(bar) = bar_with(resolution, chords, None) else {
            return Ok(None);
        };
        bars.push(bar)?;
    }
    Ok(Some(bars))
}
