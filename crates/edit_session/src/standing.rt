ghost use Rattle.bar_pool.specs.Pool.{AreTablesOf, IsTableOf, RisesWithin};
ghost use Rattle.edit_session.specs.Standing.{StandBy};
ghost use Rattle.rhythm_base.specs.Counter.{risen};
ghost use Rattle.rhythm_base.specs.Grammar.{Grammar};
ghost use Rattle.std.specs.Prelude.{◌≡◌, All, IfOk, IfSome, OnOk, length, map};

use crate::asking::place_of;
use crate::prepared::CellTable;
use crate::voice_tables::VoiceTables;
use bar_pool::{are_equal, digest};
use least_cost::{BarTable, Steps};
use rhythm_base::{BarInput, Tag};
use rhythm_ports::{Gate, Means};
use std::alloc::{AllocError, Global};
use std::thread::Threads;

/// A cell where a table may stand.
#[derive(Clone, Copy)]
struct Hint {
    channel: u8,
    bar: usize,
}

/// The cells where tables stand, by the digests of their inputs. They are hints: of two inputs that come to the same place the later one
/// is kept, and another table may stand in its cell since. So whoever goes there looks at the input of the table.
#[derive(Drop)]
pub struct Standing {
    cells: Vec<Hint>,
    pub is_filled: bool,
}

impl Standing {
    /// Places for so many cells, with none kept.
    pub fn new(alloc: Global, count: usize) -> Result<Standing, AllocError> {
        let nowhere = Hint { channel: 0, bar: 0 };
        let mut cells = Vec::with_capacity(alloc, count)?;
        'cells: for _cell in 0..count {
            cells.push(nowhere)?;
        }
        Ok(Standing {
            cells,
            is_filled: false,
        })
    }

    /// The place for an input. The upper half of a digest tells more of it than the lower one.
    fn place(&self, input: &BarInput) -> usize {
        let count = self.cells.len().max(1) as u64;
        ((digest(input) >> 32) % count) as usize
    }

    /// The cell that is kept for an input.
    fn cell(&self, input: &BarInput) -> Option<Hint> {
        self.cells.get(self.place(input)).copied()
    }

    /// Keeps the cell of an input.
    fn keep(&mut self, cell: Hint, input: &BarInput) {
        let place = self.place(input);
        if let Some(kept) = self.cells.get_mut(place) {
            *kept = cell;
        }
    }

    /// Keeps the cells of a voice.
    fn keep_voice(&mut self, channel: u8, tables: &[BarTable]) {
        'bars: for bar in 0..tables.len() {
            self.keep(Hint { channel, bar }, tables[bar].input());
        }
    }

    /// Keeps the cells of all voices.
    pub fn fill(&mut self, channels: &[u8], voices: &[VoiceTables]) {
        'voices: for (channel, voice) in channels.iter().zip(voices.iter()) {
            self.keep_voice(*channel, voice.tables());
        }
        self.is_filled = true;
    }

    /// Keeps the cells of these tables.
    pub fn keep_all(&mut self, tables: &[CellTable]) {
        'tables: for own in tables {
            let cell = Hint {
                channel: own.channel,
                bar: own.bar as usize,
            };
            self.keep(cell, own.table.input());
        }
    }

    /// The table that stands in the cell that is kept for an input, if its own input is equal to that.
    fn table<'a>(
        &self,
        channels: &[u8],
        voices: &'a [VoiceTables],
        input: &BarInput,
    ) -> Option<&'a BarTable>
        ensures { (grammar : Grammar) → All (StandBy grammar) voices.entry.now → IfSome result (λ t. IsTableOf grammar input.now t.now) }
    {
        let cell = self.cell(input)?;
        let number = place_of(channels, cell.channel)?;
        let voice = voices.get(number)?;
        let table = voice.tables().get(cell.bar)?;
        if are_equal(table.input(), input) {
            Some(table)
        } else {
            None
        }
    }

    /// A table that stands for each of these inputs, if there is one for all of them.
    pub fn tables<'a>(
        &self,
        alloc: Global,
        channels: &[u8],
        voices: &'a [VoiceTables],
        inputs: &[BarInput],
    ) -> Result<Option<Vec<&'a BarTable>>, AllocError>
        ensures { (grammar : Grammar) → All (StandBy grammar) voices.entry.now
            → IfOk result (λ found. IfSome found (λ v. AreTablesOf grammar inputs.now (map (λ t. t.now) v.items))) }
    {
        let mut found = Vec::with_capacity(alloc, inputs.len())?;
        'inputs: for number in 0..inputs.len() {
            match self.table(channels, voices, &inputs[number]) {
                None => return Ok(None),
                Some(table) => found.push(table)?,
            }
        }
        Ok(Some(found))
    }
}

/// Takes tables over, each for an input that is equal to its own. Before each the gate is passed with its number.
pub fn taken_over<R: Threads + Sync, G: Gate + Sync, B: Tag>(
    means: &Means<'_, R, G>,
    tables: &[&BarTable],
    builds: &mut Steps<B>,
) -> Result<Vec<BarTable>, AllocError>
    ensures tables { IfOk result (λ v. v.items ≡ map (λ t. t.now) tables.now) }
    ensures builds { OnOk result (builds.new ≡ risen builds.old (length tables.now)) }
    ensures most { RisesWithin builds.old builds.new (length tables.now) }
{
    let mut own = Vec::with_capacity(means.alloc, tables.len())?;
    'tables: for number in 0..tables.len() {
        means.gate.pass(number as u64);
        own.push(tables[number].for_equal_input(means.alloc, builds)?)?;
    }
    Ok(own)
}
