ghost use Rattle.rhythm_base.specs.Lists.{AreInOrder, earlier};
ghost use Rattle.rhythm_base.specs.NoteBlocks.{AreBlocks, IsBlockOf, notes_of};
ghost use Rattle.rhythm_base.specs.declared.note.Note.{Note};
ghost use Rattle.rhythm_base.specs.Performance.{place_of_note};
ghost use Rattle.std.specs.Arc.{arc_slice_items};
ghost use Rattle.std.specs.List.{AllWithin};
ghost use Rattle.std.specs.Prelude.{◌≡◌, ◌<◌, ◌≤◌, ◌^◌, ◌+◌, ◌++◌, ◌∷◌, [], ℕ, IfOk, OnOk, drop, get_or, length, slice_get, slice_range, take, true, false};

use crate::note::Note;
use std::alloc::{AllocError, Global};
use std::marker::Model;
use std::sync::ArcSlice;

/// The notes of a block of a new list.
const NOTES_OF_NEW_BLOCK: usize = 256;
/// The most notes of a block that an edit leaves.
const MOST_IN_BLOCK: usize = 512;
/// The most notes of a list, 2 ^ 62.
const MOST_LISTED: usize = 0x4000_0000_0000_0000;

/// Notes of a list that follow one another.
#[derive(Drop)]
pub struct Block {
    from: usize,
    notes: ArcSlice<Note>,
}

impl Model for Block {
    ghost use Rattle.rhythm_base.specs.NoteBlocks.{Block, block_code};
    ghost use Rattle.std.specs.Arc.{arc_slice_items};

    ghost Value = { Block };

    ghost coded = { block_code };

    ghost view = { λ b. record { from = b.from; notes = arc_slice_items b.notes } };
}

impl Block {
    /// Its notes.
    pub fn notes(&self) -> &[Note]
        ensures { result.now ≡ self.now.notes }
    {
        self.notes.as_slice()
    }

    /// How many notes of the list stand before it.
    fn from(&self) -> usize
        ensures { result ≡ self.now.from }
    {
        self.from
    }

    /// Its notes, shared.
    fn shared(&self) -> Result<ArcSlice<Note>, AllocError>
        ensures { IfOk result (λ notes. arc_slice_items notes ≡ self.now.notes) }
    {
        self.notes.clone()
    }
}

/// The block of that number is the last one before which no more notes stand than `place`.
fn block_of(blocks: &[Block], count: usize, place: usize) -> Option<usize>
    requires { AreBlocks 0 blocks.now count }
    ensures { IsBlockOf blocks.now place result }
{
    blocks
        .partition_point(|block| block.from() <= place)
        .checked_sub(1)
}

/// The blocks that end before a place, and the notes of the next block before it.
fn blocks_before(blocks: &[Block], count: usize, place: usize) -> (&[Block], &[Note])
    requires blocks { AreBlocks 0 blocks.now count }
    requires place { place ≤ count }
    ensures { notes_of result.0.now ++ result.1.now ≡ take place (notes_of blocks.now) }
{
    match block_of(blocks, count, place) {
        None => (blocks, &[]),
        Some(number) => {
            let (front, _from) = blocks.split_at(number);
            let block = &blocks[number];
            let (first, _later) = block.notes().split_at(place - block.from());
            (front, first)
        }
    }
}

/// The notes of a block from a place on, and the blocks after it.
fn blocks_from(blocks: &[Block], count: usize, place: usize) -> (&[Note], &[Block])
    requires blocks { AreBlocks 0 blocks.now count }
    requires place { place ≤ count }
    ensures { result.0.now ++ notes_of result.1.now ≡ drop place (notes_of blocks.now) }
{
    match block_of(blocks, count, place) {
        None => (&[], blocks),
        Some(number) => {
            let (_up_to, back) = blocks.split_at(number + 1);
            let block = &blocks[number];
            let (_earlier, last) = block.notes().split_at(place - block.from());
            (last, back)
        }
    }
}

/// The note of that number.
fn note_at(notes: &[Note], number: usize) -> Option<Note>
    ensures { result ≡ slice_get notes.now number }
{
    if number < notes.len() {
        Some(notes[number])
    } else {
        None
    }
}

/// Three lists as one.
fn joined(
    alloc: Global,
    first: &[Note],
    others: &[Note],
    last: &[Note],
) -> Result<Vec<Note>, AllocError>
    ensures { IfOk result (λ v. v.items ≡ first.now ++ (others.now ++ last.now)) }
{
    let count = first.len().saturating_add(others.len());
    let mut notes = Vec::with_capacity(alloc, count.saturating_add(last.len()))?;
    notes.extend_from_slice(first)?;
    notes.extend_from_slice(others)?;
    notes.extend_from_slice(last)?;
    Ok(notes)
}

/// How many notes of so many a new block takes: all, or half of what is too much for one.
fn part_of(count: usize) -> usize
    ensures { 0 < result }
{
    if count <= MOST_IN_BLOCK {
        MOST_IN_BLOCK
    } else {
        count / 2 + 1
    }
}

/// The first notes of these and of some blocks, at most so many.
fn first_notes(
    alloc: Global,
    first: &[Note],
    later: &[Block],
    most: usize,
) -> Result<Vec<Note>, AllocError>
    ensures { IfOk result (λ v. v.items ≡ take most (first.now ++ notes_of later.now)) }
{
    let mut notes = Vec::with_capacity(alloc, most)?;
    notes.extend_from_slice(&first[..first.len().min(most)])?;
    'blocks: for block in later {
        let room = most.saturating_sub(notes.len());
        if room == 0 {
            break;
        }
        let more = block.notes();
        notes.extend_from_slice(&more[..more.len().min(room)])?;
    }
    Ok(notes)
}

/// Notes in blocks. Lists that differ in few notes share the other blocks.
#[derive(Drop)]
pub struct Notes {
    blocks: ArcSlice<Block>,
    count: usize,
}

impl Model for Notes {
    ghost use Rattle.rhythm_base.specs.NoteBlocks.{AreBlocks, notes_code, notes_of};
    ghost use Rattle.rhythm_base.specs.declared.note.Note.{Note};
    ghost use Rattle.std.specs.Arc.{arc_slice_items};
    ghost use Rattle.std.specs.Prelude.{◌≤◌, ◌^◌, List};

    ghost Value = { List Note };

    ghost coded = { notes_code };

    ghost view = { λ n. notes_of (arc_slice_items n.blocks) };

    ghost invariant = { λ n. AreBlocks 0 (arc_slice_items n.blocks) n.count × (n.count ≤ 2 ^ 62) };
}

/// Blocks that become a list.
#[derive(Drop)]
struct Blocks {
    blocks: Vec<Block>,
    count: usize,
}

impl Model for Blocks {
    ghost use Rattle.rhythm_base.specs.NoteBlocks.{AreBlocks, notes_code, notes_of};
    ghost use Rattle.rhythm_base.specs.declared.note.Note.{Note};
    ghost use Rattle.std.specs.Prelude.{◌≤◌, ◌^◌, List};

    ghost Value = { List Note };

    ghost coded = { notes_code };

    ghost view = { λ b. notes_of b.blocks.items };

    ghost invariant = { λ b. AreBlocks 0 b.blocks.items b.count × (b.count ≤ 2 ^ 62) };
}

impl Blocks {
    /// No blocks, and room for some.
    fn new(alloc: Global, room: usize) -> Result<Blocks, AllocError>
        ensures { IfOk result (λ b. b ≡ []) }
    {
        let blocks = Vec::with_capacity(alloc, room)?;
        Ok(Blocks { blocks, count: 0 })
    }

    /// One more block.
    fn push(&mut self, notes: ArcSlice<Note>) -> Result<(), AllocError>
        ensures { OnOk result (self.new ≡ self.old ++ arc_slice_items notes) }
    {
        let more = notes.len();
        if MOST_LISTED - self.count < more {
            return Err(AllocError);
        }
        let from = self.count;
        self.blocks.push(Block { from, notes })?;
        self.count = from + more;
        Ok(())
    }

    /// Blocks that are shared.
    fn push_shared(&mut self, blocks: &[Block]) -> Result<(), AllocError>
        ensures { OnOk result (self.new ≡ self.old ++ notes_of blocks.now) }
    {
        'blocks: for block in blocks {
            self.push(block.shared()?)?;
        }
        Ok(())
    }

    /// New blocks of so many notes each, and the rest in the last one.
    fn push_notes(&mut self, alloc: Global, notes: &[Note], size: usize) -> Result<(), AllocError>
        requires { 0 < size }
        ensures { OnOk result (self.new ≡ self.old ++ notes.now) }
    {
        let mut rest = notes;
        'blocks: while !rest.is_empty() {
            let (block, later) = rest.split_at(rest.len().min(size));
            self.push(ArcSlice::from_slice(alloc, block)?)?;
            rest = later;
        }
        Ok(())
    }

    /// The list.
    fn finish(self) -> Result<Notes, AllocError>
        ensures { IfOk result (λ n. n ≡ self) }
    {
        let Blocks { blocks, count } = self;
        let blocks = ArcSlice::from_vec(blocks)?;
        Ok(Notes { blocks, count })
    }
}

impl Notes {
    /// The list of these notes.
    pub fn new(alloc: Global, notes: &[Note]) -> Result<Notes, AllocError>
        ensures { IfOk result (λ n. n ≡ notes.now) }
    {
        let mut blocks = Blocks::new(alloc, notes.len() / NOTES_OF_NEW_BLOCK + 1)?;
        blocks.push_notes(alloc, notes, NOTES_OF_NEW_BLOCK)?;
        blocks.finish()
    }

    /// The same list, shared.
    pub fn shared(&self) -> Result<Notes, AllocError>
        ensures { IfOk result (λ n. n ≡ self.now) }
    {
        let blocks = self.blocks.clone()?;
        Ok(Notes {
            blocks,
            count: self.count,
        })
    }

    /// How many there are.
    pub fn len(&self) -> usize
        ensures value { result ≡ length self.now }
        ensures few { length self.now ≤ 2 ^ 62 }
    {
        self.count
    }

    /// The note of that number.
    pub fn get(&self, number: usize) -> Option<Note>
        ensures { result ≡ slice_get self.now number }
    {
        let blocks = self.blocks.as_slice();
        match block_of(blocks, self.count, number) {
            None => None,
            Some(place) => {
                let block = &blocks[place];
                note_at(block.notes(), number - block.from())
            }
        }
    }

    /// The list with other notes in place of so many from a number on. It shares all blocks but those of the first and the last of them.
    pub fn with_other(
        &self,
        alloc: Global,
        from: usize,
        dropped: usize,
        others: &[Note],
    ) -> Result<Notes, AllocError>
        requires { from + dropped ≤ length self.now }
        ensures { IfOk result (λ n. n ≡ take from self.now ++ (others.now ++ drop (from + dropped) self.now)) }
    {
        let blocks = self.blocks.as_slice();
        let (front, first) = blocks_before(blocks, self.count, from);
        let (last, back) = blocks_from(blocks, self.count, from + dropped);
        let changed = joined(alloc, first, others, last)?;
        let mut list = Blocks::new(alloc, blocks.len().saturating_add(1))?;
        list.push_shared(front)?;
        list.push_notes(alloc, changed.as_slice(), part_of(changed.len()))?;
        list.push_shared(back)?;
        list.finish()
    }

    /// The notes from one number up to another.
    pub fn range(&self, alloc: Global, from: usize, up_to: usize) -> Result<Vec<Note>, AllocError>
        requires from { from ≤ up_to }
        requires up_to { up_to ≤ length self.now }
        ensures { IfOk result (λ v. v.items ≡ slice_range self.now from up_to) }
    {
        let (first, later) = blocks_from(self.blocks.as_slice(), self.count, from);
        first_notes(alloc, first, later, up_to - from)
    }

    /// The note of that number stands before this channel, onset and key.
    fn is_before(&self, number: usize, channel: u16, onset: u64, key: u8) -> bool
        requires { number < length self.now }
        ensures { (d : Note) → result ≡ earlier (place_of_note (get_or self.now number d)) (channel ∷ onset ∷ key ∷ []) }
    {
        match self.get(number) {
            None => false,
            Some(note) => (u16::from(note.channel), note.onset, note.key) < (channel, onset, key),
        }
    }

    /// How many stand before this channel, onset and key.
    pub fn count_before(&self, channel: u16, onset: u64, key: u8) -> usize
        requires { AreInOrder place_of_note self.now }
        ensures within { result ≤ length self.now }
        ensures front { AllWithin (λ n. earlier (place_of_note n) (channel ∷ onset ∷ key ∷ []) ≡ true) self.now 0 result }
        ensures back { AllWithin (λ n. earlier (place_of_note n) (channel ∷ onset ∷ key ∷ []) ≡ false) self.now result (length self.now) }
    {
        let mut low = 0;
        let mut high = self.len();
        'halves: while low < high {
            let middle = low + (high - low) / 2;
            if self.is_before(middle, channel, onset, key) {
                low = middle + 1;
            } else {
                high = middle;
            }
        }
        low
    }

    /// The notes, block after block.
    pub fn blocks(&self) -> &[Block]
        ensures { notes_of result.now ≡ self.now }
    {
        self.blocks.as_slice()
    }
}
