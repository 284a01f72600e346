ghost use Rattle.rhythm_base.specs.Shape.{shape_of_parts};
ghost use Rattle.rhythm_base.specs.ShapeText.{shape_text, texts_of_parts};
ghost use Rattle.std.specs.Prelude.{◌≡◌, ◌++◌, IfOk, OnOk, string_bytes};

use crate::shape::Shape;
use std::alloc::{AllocError, Global};
use std::fmt::Write;

impl Shape {
    /// The one text of the shape, such as `2(. 3(. . .))`: `.` is a leaf, and a cut is the number of its parts with their
    /// texts in brackets.
    pub fn text(&self, alloc: Global) -> Result<String, AllocError>
        ensures { IfOk result (λ text. string_bytes text ≡ shape_text self.now) }
    {
        let mut text = String::new(alloc);
        push_shape(self, &mut text)?;
        Ok(text)
    }
}

/// Appends the text of a shape.
#[cycle(push_text)]
fn push_shape(shape: &Shape, text: &mut String) -> Result<(), AllocError>
    ensures { OnOk result (string_bytes text.new ≡ string_bytes text.old ++ shape_text shape.now) }
{
    let parts = shape.parts();
    if parts.is_empty() {
        text.push_str(".")
    } else {
        write!(text, "{}(", parts.len())?;
        push_parts(parts, text)?;
        text.push_str(")")
    }
}

/// Appends the texts of parts, with one space between them.
#[cycle(push_text)]
fn push_parts(parts: &[Shape], text: &mut String) -> Result<(), AllocError>
    ensures { OnOk result (string_bytes text.new ≡ string_bytes text.old ++ texts_of_parts (shape_of_parts parts.now)) }
{
    match parts {
        [] => Ok(()),
        [first, rest @ ..] => {
            push_shape(first, text)?;
            if !rest.is_empty() {
                text.push_str(" ")?;
            }
            push_parts(rest, text)
        }
    }
}

#[cfg(test)]
mod tests {
    use super::*;
    use std::test::Fail;

    #[test]
    fn writes_the_one_text(rt: HostRuntime) -> Result<(), Fail> {
        let alloc = rt.alloc();
        assert!(rt; Shape::leaf().text(alloc)?.as_str() == ".");
        let three = Shape::cut(vec![in alloc; Shape::leaf(), Shape::leaf(), Shape::leaf()]?);
        let two = Shape::cut(vec![in alloc; Shape::leaf(), three]?);
        assert!(rt; two.text(alloc)?.as_str() == "2(. 3(. . .))");
        let many = Shape::cut(vec![in alloc;
            Shape::leaf(),
            Shape::leaf(),
            Shape::leaf(),
            Shape::leaf(),
            Shape::leaf(),
            Shape::leaf(),
            Shape::leaf(),
            Shape::leaf(),
            Shape::leaf(),
            Shape::leaf(),
        ]?);
        assert!(rt; many.text(alloc)?.as_str() == "10(. . . . . . . . . .)");
        Ok(())
    }
}
