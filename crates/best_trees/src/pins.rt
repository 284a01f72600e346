ghost use Rattle.best_trees.specs.Pins.{
  GrowsOutlines,
  HasOutline,
  HasPart,
  HaveNoRoom,
  IsSplitOf,
  demanded,
  leaf_count,
  least_leaves,
  outline_at,
  outline_before,
};
ghost use Rattle.rhythm_base.specs.Forest.{none};
ghost use Rattle.rhythm_base.specs.Shape.{Shape, end, shape_of_parts};
ghost use Rattle.tree_laws.specs.Forests.{has_shapes};
ghost use Rattle.std.specs.Prelude.{
  ◌≡◌,
  ◌≤◌,
  ◌↔◌,
  List,
  true,
  [],
  Some,
  None,
  IfOk,
  IsFalse,
  IsTrue,
  MatchOption,
  OnOk,
  option_map,
};

use crate::cut::Piece;
use rhythm_base::Shape;
use std::alloc::{AllocError, Global};
use std::marker::Model;

/// One of shapes side by side: its parts, and the shapes after it. None stands for no shapes.
#[derive(Clone, Copy)]
pub struct PinPart {
    pub parts: Option<usize>,
    pub others: Option<usize>,
    /// How many leaves it has together with the shapes after it.
    pub leaves: usize,
}

/// What a pin demands of trees side by side.
#[derive(Clone, Copy, PartialEq, Eq)]
pub enum Demand {
    /// There is no pin.
    Any,
    /// There are no trees: what is above them is a leaf.
    Nothing,
    /// Trees of the shapes of this number.
    Shapes(usize),
}

/// A pin, in which each part has a number. Parts may be asked for often, and by their numbers they are known again.
#[derive(Drop)]
pub struct Pins {
    parts: Vec<PinPart>,
}

impl Model for Pins {
    ghost use Rattle.best_trees.specs.Pins.{AreCounted, outlines};
    ghost use Rattle.rhythm_base.specs.ShapeCode.{shape_code};
    ghost use Rattle.rhythm_base.specs.Shape.{Shape};
    ghost use Rattle.std.specs.Coded.{coded_list};
    ghost use Rattle.std.specs.Prelude.{List, []};

    ghost Value = { List Shape };

    ghost coded = { coded_list shape_code };

    ghost view = { λ p. outlines [] p.parts.items };

    ghost invariant = { λ p. AreCounted p.parts.items };
}

/// The demand for no trees, or for those of a number.
fn demand_of(shapes: Option<usize>) -> Demand
    ensures { (os : List Shape) → demanded os result ≡ Some (outline_at os shapes) }
{
    match shapes {
        None => Demand::Nothing,
        Some(number) => Demand::Shapes(number),
    }
}

impl Pins {
    /// No parts.
    pub fn new(alloc: Global) -> Pins
        ensures { result ≡ [] }
    {
        Pins {
            parts: Vec::new(alloc),
        }
    }

    /// Takes the pin in, where there is one, and says what it demands of the trees below the root.
    pub fn take(&mut self, pin: Option<&Shape>) -> Result<Demand, AllocError>
        ensures { IfOk result (λ d. demanded self.new d ≡ option_map (λ s. s.now) pin.entry) }
    {
        match pin {
            None => Ok(Demand::Any),
            Some(shape) => {
                let shapes = self.keep_all(shape.parts())?;
                Ok(demand_of(shapes))
            }
        }
    }

    /// How many leaves the shapes of a number have.
    fn leaves_of(&self, shapes: Option<usize>) -> usize
        ensures { result ≤ leaf_count (outline_at self.now shapes) }
    {
        match shapes {
            None => 0,
            Some(number) => match self.parts.get(number) {
                None => 0,
                Some(part) => part.leaves,
            },
        }
    }

    /// Keeps a part, and the shapes after it.
    fn keep(&mut self, parts: Option<usize>, others: Option<usize>) -> Result<usize, AllocError>
        ensures more { OnOk result (GrowsOutlines self.old self.new) }
        ensures outline { IfOk result (HasPart self.old self.new parts others) }
    {
        let number = self.parts.len();
        let leaves = self
            .leaves_of(parts)
            .max(1)
            .saturating_add(self.leaves_of(others));
        self.parts.push(PinPart {
            parts,
            others,
            leaves,
        })?;
        Ok(number)
    }

    #[cycle(keeping)]
    fn keep_all(&mut self, shapes: &[Shape]) -> Result<Option<usize>, AllocError>
        ensures more { OnOk result (GrowsOutlines self.old self.new) }
        ensures outline { IfOk result (λ n. HasOutline self.new n (shape_of_parts shapes.now)) }
    {
        let mut number = None;
        'shapes: for place in (0..shapes.len()).rev() {
            let parts = self.keep_all(shapes[place].parts())?;
            number = Some(self.keep(parts, number)?);
        }
        Ok(number)
    }

    /// What is demanded of the first tree alone, as what is demanded below it, and of the trees after it; none where no
    /// tree may stand there.
    pub fn split(&self, demand: Demand) -> Option<(Demand, Demand)>
        ensures { MatchOption result (demanded self.now demand ≡ Some end) (IsSplitOf self.now demand) }
    {
        match demand {
            Demand::Any => Some((Demand::Any, Demand::Any)),
            Demand::Nothing => None,
            Demand::Shapes(number) => {
                if number >= self.parts.len() {
                    return None;
                }
                let part = self.parts[number];
                let first = earlier(part.parts, number);
                let others = earlier(part.others, number);
                Some((demand_of(first), demand_of(others)))
            }
        }
    }

    /// Whether no trees are allowed: so there may be a leaf.
    pub fn allows_none(&self, demand: Demand) -> bool
        ensures { IsTrue result ↔ (has_shapes (demanded self.now demand) none ≡ true) }
    {
        match demand {
            Demand::Any | Demand::Nothing => true,
            Demand::Shapes(_) => self.split(demand).is_none(),
        }
    }

    /// How many leaves are demanded of trees, at least.
    pub fn leaves(&self, demand: Demand) -> usize
        ensures { result ≤ least_leaves (demanded self.now demand) }
    {
        match demand {
            Demand::Any | Demand::Nothing => 0,
            Demand::Shapes(number) => self.leaves_of(Some(number)),
        }
    }

    /// Whether trees over these pieces may be as demanded: there are as many, and none is to have more leaves than units.
    #[cycle(room)]
    pub fn have_room(&self, demand: Demand, pieces: &[Piece]) -> bool
        ensures { IsFalse result → HaveNoRoom self.now demand pieces.now }
    {
        match pieces {
            [] => self.allows_none(demand),
            [piece, rest @ ..] => match self.split(demand) {
                None => false,
                Some((first, others)) => {
                    if self.leaves(first) > usize::from(piece.width) {
                        return false;
                    }
                    self.have_room(others, rest)
                }
            },
        }
    }
}

/// The number where it is below another.
fn earlier(part: Option<usize>, number: usize) -> Option<usize>
    ensures { (os : List Shape) → outline_at os result ≡ outline_before os number part }
{
    match part {
        Some(part) if part < number => Some(part),
        _ => None,
    }
}
