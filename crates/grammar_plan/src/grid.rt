use rhythm_base::{Body, Grammar};
use std::alloc::AllocError;

/// How the intervals of all seats are laid out in one table.
#[derive(Drop)]
pub struct Grid {
    /// Parts are unequal, so an interval may begin at any unit. Else those of a width begin at multiples of it.
    uneven: bool,
    resolution: u16,
    /// How many intervals the seats so far have.
    pub places: u32,
}

/// Where the intervals of a seat lie in the table.
#[derive(Clone, Copy)]
pub struct Stretch {
    pub base: u32,
    pub inverse: u32,
}

impl Grid {
    pub fn new(grammar: &Grammar) -> Grid {
        Grid {
            uneven: grammar
                .rules
                .iter()
                .any(|rule| matches!(rule.body, Body::Parts(_))),
            resolution: grammar.resolution,
            places: 0,
        }
    }

    /// The intervals of one seat more, of a width above 0.
    pub fn push(&mut self, width: u16) -> Result<Stretch, AllocError> {
        let base = self.places;
        let (count, inverse) = if self.uneven {
            (self.resolution.saturating_sub(width) as u32 + 1, 65_536)
        } else {
            (
                (self.resolution / width.max(1)) as u32,
                65_535 / width.max(1) as u32 + 1,
            )
        };
        self.places = base.checked_add(count).ok_or(AllocError)?;
        Ok(Stretch { base, inverse })
    }
}
