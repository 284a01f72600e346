ghost use Rattle.bar_trees.specs.WrittenLists.{list_number};
ghost use Rattle.std.specs.Prelude.{◌≡◌, ◌<◌, [], OnOk, length, slice_set};

use std::alloc::{AllocError, Global};

/// Rule lists one after another: for each number of chords carried in one for each number carried out.
#[derive(Drop)]
pub struct WrittenLists {
    pub rules: Vec<u16>,
    /// Where each list ends. The first begins at 0, and each other where the one before it ends.
    pub ends: [u16; 25],
}

impl WrittenLists {
    /// No rules.
    pub fn new(alloc: Global) -> WrittenLists
        ensures empty { result.rules.items ≡ [] }
        ensures long { length result.ends ≡ 25 }
    {
        WrittenLists {
            rules: Vec::new(alloc),
            ends: [0; 25],
        }
    }

    /// Forgets all rules.
    pub fn clear(&mut self)
        ensures empty { self.new.rules.items ≡ [] }
        ensures long { length self.new.ends ≡ 25 }
    {
        self.rules.clear();
        self.ends = [0; 25];
    }

    /// Ends the list for these numbers carried in and out. Where the numbers of places have run out, the answer is that there
    /// is no memory: they do not, as a list has a rule for each node of a tree of up to 960 leaves.
    #[inline(always)]
    pub fn end(&mut self, from: u8, to: u8) -> Result<(), AllocError>
        requires from { from < 5 }
        requires to { to < 5 }
        ensures rules { self.new.rules.items ≡ self.old.rules.items }
        ensures ends { OnOk result (self.new.ends ≡ slice_set self.old.ends (list_number from to) (length self.old.rules.items)) }
    {
        let end = u16::try_from(self.rules.len()).ok().ok_or(AllocError)?;
        self.ends[5 * from as usize + to as usize] = end;
        Ok(())
    }
}
