ghost use Rattle.std.specs.Prelude.{◌≡◌, ◌++◌, OnOk, IfOk};
ghost use Rattle.rhythm_base.specs.Forest.{preorder_of};

use std::alloc::{AllocError, Global};
use std::marker::Model;

/// A rhythm tree: a rule of the grammar with the trees of its parts, first to last. A leaf has none. A contract sees the
/// rules' numbers as plain data.
#[derive(Drop)]
pub struct Tree {
    /// The number of the rule, from 0 in the order of the grammar's file.
    pub rule: u16,
    /// The trees of the parts, first to last.
    pub kids: Vec<Tree>,
}

impl Model for Tree {
    ghost use Rattle.std.proofs.Common.{arith};
    ghost use Rattle.rhythm_base.specs.TreeCode.{tree_code};
    ghost use Rattle.rhythm_base.specs.Forest.{Tree, forest_of, size_of, most_le-count};

    ghost Value = { Tree };

    ghost coded = { tree_code };

    ghost view = { λ t. record { rule = t.rule; kids = forest_of t.kids.items } };

    ghost size = { size_of };

    ghost size_decreases = { λ t h. omega (arith, most_le-count t.kids.items) };
}

impl Tree {
    /// An equal tree.
    pub fn copy(&self, alloc: Global) -> Result<Tree, AllocError>
        ensures { IfOk result (λ t. t ≡ self.now) }
    {
        let mut kids = Vec::new(alloc);
        for kid in &self.kids {
            kids.push(kid.copy(alloc)?)?;
        }
        Ok(Tree {
            rule: self.rule,
            kids,
        })
    }

    /// The numbers of the rules in preorder: each before those of its children.
    pub fn sequence(&self, alloc: Global) -> Result<Vec<u16>, AllocError>
        ensures { IfOk result (λ v. v.items ≡ preorder_of self.now) }
    {
        let mut rules = Vec::new(alloc);
        self.push_rules(&mut rules)?;
        Ok(rules)
    }

    fn push_rules(&self, rules: &mut Vec<u16>) -> Result<(), AllocError>
        ensures { OnOk result (rules.new.items ≡ rules.old.items ++ preorder_of self.now) }
    {
        rules.push(self.rule)?;
        for kid in &self.kids {
            kid.push_rules(rules)?;
        }
        Ok(())
    }
}

#[cfg(test)]
mod tests {
    use super::*;
    use std::test::Fail;

    /// A rule over two leaves.
    fn half(alloc: Global, rule: u16, first: u16, second: u16) -> Result<Tree, AllocError> {
        let leaf = Tree {
            rule: first,
            kids: Vec::new(alloc),
        };
        let last = Tree {
            rule: second,
            kids: Vec::new(alloc),
        };
        Ok(Tree {
            rule,
            kids: vec![in alloc; leaf, last]?,
        })
    }

    #[test]
    fn lists_rules_in_preorder(rt: HostRuntime) -> Result<(), Fail> {
        let alloc = rt.alloc();
        let kids = vec![in alloc; half(alloc, 1, 2, 3)?, half(alloc, 4, 5, 6)?]?;
        let tree = Tree { rule: 0, kids }.copy(alloc)?;
        assert!(rt; tree.sequence(alloc)?.as_slice() == [0, 1, 2, 3, 4, 5, 6].as_slice());
        Ok(())
    }
}
