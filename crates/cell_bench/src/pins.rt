ghost use Rattle.std.specs.Prelude.{◌<◌, ◌≤◌};

use rhythm_base::Shape;
use std::alloc::{AllocError, Global};

/// How a pin cuts the bar: each part in two.
#[derive(Clone, Copy)]
pub enum Cutting {
    /// Into halves.
    Halved,
    /// Into parts that are drawn.
    Drawn,
    /// Into one leaf and all others.
    Deep,
}

impl Cutting {
    /// The way of a name.
    pub fn named(name: &str) -> Option<Cutting> {
        match name {
            "halved" => Some(Cutting::Halved),
            "drawn" => Some(Cutting::Drawn),
            "deep" => Some(Cutting::Deep),
            _ => None,
        }
    }

    /// How many of so many leaves are in the first part.
    fn first(self, leaves: u32, seed: u64) -> u32
        requires { 2 ≤ leaves }
        ensures some { 1 ≤ result }
        ensures others { result < leaves }
    {
        match self {
            Cutting::Halved => leaves / 2,
            Cutting::Drawn => 1 + ((seed >> 33) % u64::from(leaves - 1)) as u32,
            Cutting::Deep => 1,
        }
    }
}

/// A shape of so many leaves.
pub fn shape_of(
    alloc: Global,
    cutting: Cutting,
    leaves: u32,
    seed: u64,
) -> Result<Shape, AllocError> {
    if leaves < 2 {
        return Ok(Shape::leaf());
    }
    let next = seed
        .wrapping_mul(6_364_136_223_846_793_005)
        .wrapping_add(1_442_695_040_888_963_407);
    let count = cutting.first(leaves, next);
    let first = shape_of(alloc, cutting, count, next)?;
    let second = shape_of(alloc, cutting, leaves - count, next ^ 12_345)?;
    let mut parts = Vec::new(alloc);
    parts.push(first)?;
    parts.push(second)?;
    Ok(Shape::cut(parts))
}
