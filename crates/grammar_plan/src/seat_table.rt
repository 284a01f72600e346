use std::alloc::{AllocError, Global};

/// By width and symbol: the number of a seat. What is read is to be checked.
#[derive(Drop)]
pub struct SeatTable {
    /// By width: the number of its row.
    numbers: Vec<Option<u32>>,
    /// By symbol.
    rows: Vec<[Option<u32>; 64]>,
}

impl SeatTable {
    /// No seats, of widths up to this one.
    pub fn new(alloc: Global, widest: u16) -> Result<SeatTable, AllocError> {
        Ok(SeatTable {
            numbers: vec![in alloc; None; widest as usize + 1]?,
            rows: Vec::new(alloc),
        })
    }

    pub fn find(&self, width: u16, symbol: u8) -> Option<u32> {
        match self.numbers.get(width as usize) {
            Some(Some(number)) => match self.rows.get(*number as usize) {
                Some(row) if symbol < 64 => row[symbol as usize],
                Some(_) | None => None,
            },
            Some(None) | None => None,
        }
    }

    pub fn keep(&mut self, width: u16, symbol: u8, seat: u32) -> Result<(), AllocError> {
        let number = self.number(width)? as usize;
        if number < self.rows.len() && symbol < 64 {
            let mut row = self.rows[number];
            row[symbol as usize] = Some(seat);
            self.rows[number] = row;
        }
        Ok(())
    }

    /// The number of the width's row, which is made where there is none.
    fn number(&mut self, width: u16) -> Result<u32, AllocError> {
        if let Some(Some(number)) = self.numbers.get(width as usize) {
            return Ok(*number);
        }
        let number = u32::try_from(self.rows.len()).ok().ok_or(AllocError)?;
        self.rows.push([None; 64])?;
        if (width as usize) < self.numbers.len() {
            self.numbers[width as usize] = Some(number);
        }
        Ok(number)
    }
}
