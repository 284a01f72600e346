ghost use Rattle.rhythm_gen.specs.Draws.{draw, next_draw};
ghost use Rattle.std.specs.Prelude.{◌≡◌, ◌+◌};

use crate::piece_number::PieceNumber;
use std::marker::Model;

/// A stream of draws, by its last draw, or by its start where there is none yet.
#[derive(Drop)]
pub(crate) struct Draws {
    last: u32,
}

impl Model for Draws {
    ghost use Rattle.std.specs.Prelude.{ℕ, ◌<◌};

    ghost Value = { ℕ };

    ghost view = { λ d. d.last };

    ghost invariant = { λ d. d.last < 65537 };
}

impl Draws {
    /// The stream of a piece, which starts with its number.
    pub(crate) fn of_piece(number: PieceNumber) -> Draws
        ensures { result ≡ number }
    {
        Draws {
            last: number.number(),
        }
    }

    /// The stream of a drill, which starts with the next number.
    pub(crate) fn of_drill(number: PieceNumber) -> Draws
        ensures { result ≡ number + 1 }
    {
        Draws {
            last: number.number() + 1,
        }
    }

    /// The next draw, below 65,537.
    pub(crate) fn next(&mut self) -> u32
        ensures new { self.new ≡ next_draw self.old }
        ensures value { result ≡ self.new }
    {
        self.last = (75 * self.last + 74) % 65537;
        self.last
    }

    /// The draw of this number, counted from 1; the start where it is 0.
    #[tactic(auto, using(crate::proofs::OneMoreDraw::first_draw, crate::proofs::OneMoreDraw::later_draw))]
    pub(crate) fn draw(mut self, number: u32) -> u32
        ensures { result ≡ draw self number }
    {
        let mut draw = self.last;
        for _ in 0..number {
            draw = self.next();
        }
        draw
    }
}
