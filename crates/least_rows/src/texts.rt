ghost use Rattle.least_rows.specs.Texts.{HasKeptNone, HasKept, StandsAt, KeepsText};
ghost use Rattle.std.specs.Prelude.{◌≡◌, IfSome, OnOk};

use crate::tree_at::TreeAt;
use std::alloc::{AllocError, Global};

/// Where the rule list of a least tree stands among the rules that are written.
#[derive(Clone, Copy)]
pub struct Text {
    pub tree: TreeAt,
    /// Among the rules: the first, and before the end.
    pub first: u32,
    pub end: u32,
}

/// Rule lists of a bar that are written already, so that each is made once. What a slot tells of another tree than the one that
/// is asked for is passed over.
#[derive(Drop)]
pub struct Texts {
    /// By the slot: the number of the list that was kept for it last. It may be one of a bar before: the list itself tells.
    pub slots: Vec<u32>,
    /// The lists that were kept in this bar, in the order in which they were written.
    pub texts: Vec<Text>,
}

impl Texts {
    /// No lists, and no room for one.
    pub fn new(alloc: Global) -> Texts {
        Texts {
            slots: Vec::new(alloc),
            texts: Vec::new(alloc),
        }
    }

    /// Forgets all lists, and makes room for so many.
    pub fn clear(&mut self, count: usize) -> Result<(), AllocError>
        ensures { OnOk result (HasKeptNone self.new) }
    {
        self.texts.clear();
        if self.slots.len() < count {
            self.slots.resize(count, 0)?;
        }
        Ok(())
    }

    /// Where the list of a tree stands, if its slot has it.
    #[inline(always)]
    pub fn find(&self, slot: usize, tree: TreeAt) -> Option<Text>
        ensures { IfSome result (λ t. HasKept self.now t × (t.tree ≡ tree)) }
    {
        let number = *self.slots.get(slot)? as usize;
        let text = *self.texts.get(number)?;
        let own = text.tree;
        if own.seat == tree.seat
            && own.place == tree.place
            && own.from == tree.from
            && own.to == tree.to
        {
            Some(text)
        } else {
            None
        }
    }

    /// Keeps where the list of a tree stands, where the slot is within and the places are small enough.
    #[inline(always)]
    pub fn keep(
        &mut self,
        slot: usize,
        tree: TreeAt,
        first: usize,
        end: usize,
    ) -> Result<(), AllocError>
        ensures { OnOk result (KeepsText self.old self.new tree first end) }
    {
        let Some(text) = text_at(tree, first, end) else {
            return Ok(());
        };
        let number = u32::try_from(self.texts.len()).ok().ok_or(AllocError)?;
        self.texts.push(text)?;
        if let Some(cell) = self.slots.get_mut(slot) {
            *cell = number;
        }
        Ok(())
    }
}

/// The list of a tree at these places, where they are small enough.
#[inline(always)]
fn text_at(tree: TreeAt, first: usize, end: usize) -> Option<Text>
    ensures { IfSome result (StandsAt tree first end) }
{
    let first = u32::try_from(first).ok()?;
    let end = u32::try_from(end).ok()?;
    Some(Text { tree, first, end })
}
