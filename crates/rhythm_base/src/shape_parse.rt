ghost use Rattle.rhythm_base.specs.Shape.{shape_of_parts};
ghost use Rattle.rhythm_base.specs.ShapeReading.{AreParts, ByteText, HeadText, HeadAfter1, IsHead, IsPart, PartText, PartsText, Stops, StopsWith, after_1, head_text};
ghost use Rattle.rhythm_base.specs.ShapeText.{IsShapeFault, IsShapeText, shape_text, texts_of_parts};
ghost use Rattle.rhythm_base.specs.declared.shape_parse.Stop.TheVariants.{Memory};
ghost use Rattle.std.specs.Prelude.{List, ◌+◌, ◌<◌, ◌≤◌, ◌≡◌, ◌∷◌, ◌++◌, [], IfErr, IfOk, length};
ghost use Rattle.rhythm_base.specs.Shape.{Shape};

use crate::shape::Shape;
use std::alloc::{AllocError, AllocFailed, Global};
use std::error::Error;
use std::fmt;

/// Why a text is that of no shape.
#[derive(Clone, Copy, Debug, PartialEq, Eq)]
pub enum ShapeFault {
    /// What stands before this byte, counted from 0, begins the text of a shape; with the byte it does not.
    BadByte(usize),
    /// The text begins that of a shape and is not the whole of one.
    Cut,
    /// There was not enough memory.
    Memory,
}

impl fmt::Display for ShapeFault {
    fn fmt<W: fmt::Write>(&self, f: &mut fmt::Formatter<W>) -> fmt::Result {
        match self {
            ShapeFault::BadByte(at) => write!(f, "no shape has byte {at} of the text there"),
            ShapeFault::Cut => write!(f, "the text of the shape is cut short"),
            ShapeFault::Memory => write!(f, "not enough memory"),
        }
    }
}

impl Error for ShapeFault {}

/// Where reading stops.
pub(crate) enum Stop {
    /// Before the last bytes of the text, so many of them.
    With(usize),
    /// There was not enough memory.
    Memory,
}

impl From<AllocError> for Stop {
    ghost from_gives = { λ _ e. e ≡ Memory };

    fn from(_error: AllocError) -> Stop {
        Stop::Memory
    }
}

impl<T: Drop> From<AllocFailed<T>> for Stop {
    ghost from_gives = { λ _ e. e ≡ Memory };

    fn from(_error: AllocFailed<T>) -> Stop {
        Stop::Memory
    }
}

/// The deepest level below a shape: with its own it has 96.
const LEVELS: usize = 95;

impl Shape {
    /// The shape that a text such as `2(. 3(. . .))` writes: `.` is a leaf, and a cut is the number of its parts, 2 to 16,
    /// with their texts in brackets. A shape has at most 96 levels.
    pub fn parse(alloc: Global, text: &str) -> Result<Shape, ShapeFault>
        ensures ok { IfOk result (λ shape. IsShapeText text.now shape) }
        ensures err { IfErr result (λ fault. IsShapeFault text.now fault) }
    {
        let text = text.as_bytes();
        match part(alloc, text, LEVELS) {
            Ok((shape, [])) => Ok(shape),
            Ok((_shape, rest)) => Err(ShapeFault::BadByte(text.len() - rest.len())),
            Err(Stop::With(left)) => Err(fault_with(text, left)),
            Err(Stop::Memory) => Err(ShapeFault::Memory),
        }
    }
}

/// The fault of a text whose reading stops with so many bytes left.
fn fault_with(text: &[u8], left: usize) -> ShapeFault
    requires { StopsWith (PartText 95) text.now left }
    ensures { IsShapeFault text.now result }
{
    if left == 0 {
        ShapeFault::Cut
    } else {
        ShapeFault::BadByte(text.len() - left)
    }
}

/// Reads one byte.
fn byte<'a>(expected: u8, text: &'a [u8]) -> Result<&'a [u8], Stop>
    ensures ok { IfOk result (λ rest. text.now ≡ expected ∷ rest.now) }
    ensures err { IfErr result (λ stop. Stops (ByteText expected) text.now stop) }
{
    match text {
        [first, rest @ ..] if *first == expected => Ok(rest),
        _ => Err(Stop::With(text.len())),
    }
}

/// Reads a leaf, or a cut up to its first part: how many parts it has, none for a leaf.
fn head<'a>(text: &'a [u8], levels: usize) -> Result<(usize, &'a [u8]), Stop>
    ensures ok { IfOk result (λ r. IsHead levels r.0 × (text.now ≡ head_text r.0 ++ r.1.now)) }
    ensures err { IfErr result (λ stop. Stops (HeadText levels) text.now stop) }
{
    let (first, rest) = match text {
        [] => return Err(Stop::With(0)),
        [first, rest @ ..] => (*first, rest),
    };
    if first == b'.' {
        Ok((0, rest))
    } else if levels == 0 {
        Err(Stop::With(text.len()))
    } else if first == b'1' {
        head_after_1(rest)
    } else if (b'2'..=b'9').contains(&first) {
        Ok((usize::from(first - b'0'), byte(b'(', rest)?))
    } else {
        Err(Stop::With(text.len()))
    }
}

/// Reads the second digit of a number of parts, 10 to 16, and the bracket.
fn head_after_1<'a>(text: &'a [u8]) -> Result<(usize, &'a [u8]), Stop>
    ensures ok { IfOk result (λ r. (10 ≤ r.0) × (r.0 ≤ 16) × (text.now ≡ after_1 r.0 ++ r.1.now)) }
    ensures err { IfErr result (λ stop. Stops HeadAfter1 text.now stop) }
{
    match text {
        [] => Err(Stop::With(0)),
        [digit, rest @ ..] => {
            if (b'0'..=b'6').contains(digit) {
                Ok((10 + usize::from(*digit - b'0'), byte(b'(', rest)?))
            } else {
                Err(Stop::With(text.len()))
            }
        }
    }
}

/// Reads a shape with so many levels below it at most, and gives what stands after it.
#[cycle(parse)]
fn part<'a>(alloc: Global, text: &'a [u8], levels: usize) -> Result<(Shape, &'a [u8]), Stop>
    ensures ok { IfOk result (λ r. IsPart levels r.0 × (text.now ≡ shape_text r.0 ++ r.1.now)) }
    ensures shorter { IfOk result (λ r. length r.1.now < length text.now) }
    ensures err { IfErr result (λ stop. Stops (PartText levels) text.now stop) }
{
    let (count, rest) = head(text, levels)?;
    if count == 0 {
        return Ok((Shape::leaf(), rest));
    }
    let mut parts = Vec::new(alloc);
    let rest = push_parts(alloc, rest, levels, count, &mut parts)?;
    let rest = byte(b')', rest)?;
    Ok((Shape::cut(parts), rest))
}

/// Reads so many parts of a shape, with one space between them.
#[cycle(parse)]
fn push_parts<'a>(
    alloc: Global,
    text: &'a [u8],
    levels: usize,
    count: usize,
    parts: &mut Vec<Shape>,
) -> Result<&'a [u8], Stop>
    requires some { 1 ≤ count }
    requires deep { 1 ≤ levels }
    ensures ok { IfOk result (λ rest. (read : List Shape) × AreParts levels count (shape_of_parts read)
        × (parts.new.items ≡ parts.old.items ++ read) × (text.now ≡ texts_of_parts (shape_of_parts read) ++ rest.now)) }
    ensures err { IfErr result (λ stop. Stops (PartsText levels count) text.now stop) }
{
    let mut left = text;
    'others: for _ in 1..count {
        let (shape, rest) = part(alloc, left, levels - 1)?;
        parts.push(shape)?;
        left = byte(b' ', rest)?;
    }
    let (shape, rest) = part(alloc, left, levels - 1)?;
    parts.push(shape)?;
    Ok(rest)
}

#[cfg(test)]
mod tests {
    use super::*;
    use std::test::Fail;

    fn fault_of(alloc: Global, text: &str) -> Option<ShapeFault> {
        Shape::parse(alloc, text).err()
    }

    #[test]
    fn reads_what_it_writes(rt: HostRuntime) -> Result<(), Fail> {
        let alloc = rt.alloc();
        for text in [
            ".",
            "2(. .)",
            "2(. 3(. . .))",
            "10(. . . . . . . . . .)",
            "16(. . . . . . . . . . . . . . . .)",
        ] {
            assert!(rt; Shape::parse(alloc, text)?.text(alloc)?.as_str() == text);
        }
        Ok(())
    }

    #[test]
    fn the_first_bad_byte_is_named(rt: HostRuntime) -> Result<(), Fail> {
        let alloc = rt.alloc();
        for (text, at) in [
            ("1(", 1),
            ("17", 1),
            ("2(. . .)", 5),
            (".x", 1),
            ("02(. .)", 0),
            ("0", 0),
            ("x", 0),
            ("2)", 1),
            ("2(.  .)", 4),
            ("2(. .) ", 6),
            ("2(. . )", 5),
            ("2(. 1(. .))", 5),
        ] {
            assert!(rt; fault_of(alloc, text) == Some(ShapeFault::BadByte(at)));
        }
        Ok(())
    }

    #[test]
    fn what_only_begins_is_cut(rt: HostRuntime) -> Result<(), Fail> {
        let alloc = rt.alloc();
        for text in ["", "1", "2", "16", "2(", "2(.", "2(. ", "2(. ."] {
            assert!(rt; fault_of(alloc, text) == Some(ShapeFault::Cut));
        }
        Ok(())
    }

    /// The text of a shape with so many levels, each cut in two, as far as its deepest leaf.
    fn nested(alloc: Global, levels: usize) -> Result<String, AllocError> {
        let mut text = String::new(alloc);
        for _level in 1..levels {
            text.push_str("2(")?;
        }
        text.push_str(".")?;
        for _level in 1..levels {
            text.push_str(" .)")?;
        }
        Ok(text)
    }

    #[test]
    fn a_shape_has_at_most_96_levels(rt: HostRuntime) -> Result<(), Fail> {
        let alloc = rt.alloc();
        let deepest = nested(alloc, 96)?;
        assert!(rt;
            Shape::parse(alloc, deepest.as_str())?.text(alloc)?.as_str() == deepest.as_str()
        );
        let deeper = nested(alloc, 97)?;
        assert!(rt; fault_of(alloc, deeper.as_str()) == Some(ShapeFault::BadByte(190)));
        Ok(())
    }
}
