ghost use Rattle.grammar_plan.specs.Drafts.{HasAdded};
ghost use Rattle.std.specs.Prelude.{◌≡◌, [], slice_get, IfOk, IfSome, Some};

use crate::seat_table::SeatTable;
use std::alloc::{AllocError, Global};

/// The widths, in units, and symbols that occur together, by the numbers of their seats.
#[derive(Drop)]
pub struct Pairs {
    pub found: Vec<(u16, u8)>,
    table: SeatTable,
}

impl Pairs {
    /// None, of widths up to this one.
    pub fn new(alloc: Global, widest: u16) -> Result<Pairs, AllocError>
        ensures { IfOk result (λ p. p.found.items ≡ []) }
    {
        Ok(Pairs {
            found: Vec::new(alloc),
            table: SeatTable::new(alloc, widest)?,
        })
    }

    /// The seat of a width and a symbol, which is made where there is none yet.
    pub fn seat(&mut self, width: u16, symbol: u8) -> Result<u32, AllocError>
        ensures seat { IfOk result (λ n. slice_get self.new.found.items n ≡ Some (width, symbol)) }
        ensures more { IfOk result (λ _. HasAdded (width, symbol) self.old self.new) }
    {
        if let Some(seat) = self.known(width, symbol) {
            return Ok(seat);
        }
        let seat = u32::try_from(self.found.len()).ok().ok_or(AllocError)?;
        self.found.push((width, symbol))?;
        self.table.keep(width, symbol, seat)?;
        Ok(seat)
    }

    fn known(&self, width: u16, symbol: u8) -> Option<u32>
        ensures { IfSome result (λ n. slice_get self.now.found.items n ≡ Some (width, symbol)) }
    {
        match self.table.find(width, symbol) {
            Some(seat) if (seat as usize) < self.found.len() => {
                let pair = self.found[seat as usize];
                if pair.0 == width && pair.1 == symbol {
                    Some(seat)
                } else {
                    None
                }
            }
            Some(_) | None => None,
        }
    }
}
