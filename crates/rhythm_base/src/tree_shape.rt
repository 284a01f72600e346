ghost use Rattle.rhythm_base.specs.Shapes.{are_cut, can_have, parts_in};
ghost use Rattle.rhythm_base.specs.Trees.{shape_of};
ghost use Rattle.rhythm_base.specs.Forest.{forest_of};
ghost use Rattle.std.specs.Prelude.{◌∷◌, [], ◌≡◌, IfOk, IsTrue};

use crate::shape::Shape;
use crate::tree::Tree;
use std::alloc::{AllocError, Global};

impl Tree {
    /// The shape of the tree: how it and each of its parts is cut. Each cut must have 2 to 16 parts, and a tree of a readable
    /// grammar has no others.
    pub fn shape(&self, alloc: Global) -> Result<Shape, AllocError>
        requires top { IsTrue (can_have (parts_in (shape_of self.now.kids))) }
        requires below { IsTrue (are_cut (shape_of self.now.kids)) }
        ensures { IfOk result (λ s. s ≡ shape_of self.now.kids) }
    {
        if self.kids.is_empty() {
            return Ok(Shape::leaf());
        }
        let mut parts = Vec::new(alloc);
        for kid in &self.kids {
            parts.push(kid.shape(alloc)?)?;
        }
        Ok(Shape::cut(parts))
    }
}

#[cfg(test)]
mod tests {
    use super::*;
    use std::test::Fail;

    fn leaf(alloc: Global) -> Tree
        ensures { result ≡ record { rule = 2; kids = forest_of [] } }
    {
        Tree {
            rule: 2,
            kids: Vec::new(alloc),
        }
    }

    fn cut(alloc: Global, rule: u16, first: Tree, second: Tree) -> Result<Tree, AllocError>
        ensures { IfOk result (λ t. t ≡ record { rule = rule; kids = forest_of (first ∷ second ∷ []) }) }
    {
        Ok(Tree {
            rule,
            kids: vec![in alloc; first, second]?,
        })
    }

    #[test]
    fn tells_how_a_tree_is_cut(rt: HostRuntime) -> Result<(), Fail> {
        let alloc = rt.alloc();
        assert!(rt; leaf(alloc).shape(alloc)?.text(alloc)?.as_str() == ".");
        let inner = cut(alloc, 1, leaf(alloc), leaf(alloc))?;
        let tree = cut(alloc, 0, leaf(alloc), inner)?;
        assert!(rt; tree.shape(alloc)?.text(alloc)?.as_str() == "2(. 2(. .))");
        Ok(())
    }
}
