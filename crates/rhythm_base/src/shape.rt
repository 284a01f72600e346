ghost use Rattle.rhythm_base.specs.declared.limits.TheConstants.{MOST_PARTS};
ghost use Rattle.std.specs.Prelude.{◌≡◌, ◌≤◌, ◌↔◌, IfOk, IsTrue, length};
ghost use Rattle.rhythm_base.specs.Shape.{shape_of_parts, end};

use std::alloc::{AllocError, Global};
use std::marker::Model;

/// How an interval is cut. A cut has 2 to 16 parts.
#[cycle(shape)]
#[derive(Drop)]
pub struct Shape {
    node: Node,
}

#[cycle(shape)]
#[derive(Drop)]
pub enum Node {
    Leaf,
    Cut(Vec<Shape>),
}

impl Model for Shape {
    ghost use Rattle.rhythm_base.specs.ShapeCode.{shape_code};
    ghost use Rattle.rhythm_base.specs.Shape.{Shape, cuts};

    ghost Value = { Shape };

    ghost coded = { shape_code };

    ghost use Rattle.rhythm_base.specs.Shapes.{HasParts, shape_of_node};

    ghost view = { λ s. shape_of_node s.node };

    ghost invariant = { λ s. HasParts s.node };

    ghost size = { cuts };

    ghost use Rattle.rhythm_base.specs.ShapeFalls.{deep_le};

    ghost size_decreases = { λ s h. deep_le s.node };
}

impl Shape {
    pub fn leaf() -> Shape
        ensures { result ≡ end }
    {
        Shape { node: Node::Leaf }
    }

    pub fn cut(parts: Vec<Shape>) -> Shape
        requires low { 2 ≤ length parts.items }
        requires high { length parts.items ≤ MOST_PARTS }
        ensures { result ≡ shape_of_parts parts.items }
    {
        Shape {
            node: Node::Cut(parts),
        }
    }

    /// An equal shape.
    pub fn copy(&self, alloc: Global) -> Result<Shape, AllocError>
        ensures { IfOk result (λ s. s ≡ self.now) }
    {
        match &self.node {
            Node::Leaf => Ok(Shape::leaf()),
            Node::Cut(parts) => {
                let mut copies = Vec::new(alloc);
                for part in parts {
                    copies.push(part.copy(alloc)?)?;
                }
                Ok(Shape::cut(copies))
            }
        }
    }

    /// The shapes are equal.
    #[cycle(same)]
    pub fn same(&self, other: &Shape) -> bool
        ensures { IsTrue result ↔ (self.now ≡ other.now) }
    {
        same_parts(self.parts(), other.parts())
    }

    /// The parts of a cut, and none of a leaf.
    pub fn parts(&self) -> &[Shape]
        ensures { shape_of_parts result.now ≡ self.now }
    {
        match &self.node {
            Node::Leaf => &[],
            Node::Cut(parts) => parts.as_slice(),
        }
    }
}

#[cycle(same)]
fn same_parts(parts: &[Shape], others: &[Shape]) -> bool
    ensures { IsTrue result ↔ (shape_of_parts parts.now ≡ shape_of_parts others.now) }
{
    match parts {
        [] => match others {
            [] => true,
            [_other, _more @ ..] => false,
        },
        [first, rest @ ..] => match others {
            [] => false,
            [other, more @ ..] => first.same(other) && same_parts(rest, more),
        },
    }
}

#[cfg(test)]
mod tests {
    use super::*;
    use std::test::Fail;

    #[test]
    fn copies_are_the_same(rt: HostRuntime) -> Result<(), Fail> {
        let alloc = rt.alloc();
        let parts = vec![in alloc; Shape::leaf(), Shape::leaf()]?;
        assert!(rt; parts.len() == 2);
        let two = Shape::cut(parts);
        assert!(rt; two.copy(alloc)?.same(&two));
        assert!(rt; !two.same(&Shape::leaf()));
        Ok(())
    }
}
