ghost use Rattle.best_trees.specs.Memos.{
  AddsFound,
  AreThere,
  IsGridOf,
  IsKnownAs,
  IsUnknown,
  KeepsKnown,
  demand_code,
  family_code,
  site_code,
};
ghost use Rattle.best_trees.specs.declared.memo.Found.{Found};
ghost use Rattle.std.specs.Prelude.{◌≡◌, ◌<◌, [], length, slice_get, IfOk, MatchOption, OnOk, Some};

use crate::grid::Grid;
use crate::pins::Demand;
use row_laws::Quiet;
use std::alloc::{AllocError, Global};
use std::collections::HashMap;

/// Which trees are asked for: those of a symbol over an interval of units, of a shape where one is demanded.
#[derive(Clone, Copy)]
pub struct Asked {
    pub place: u16,
    pub width: u16,
    pub symbol: u8,
    /// What is demanded of the trees below the root.
    pub demand: Demand,
}

/// Where intervals of one width lie that are answered alike.
#[derive(Clone, Copy, PartialEq, Eq)]
pub enum Site {
    /// From this unit on.
    From(u16),
    /// Wherever it is quiet so.
    Wherever(Quiet),
}

/// Trees that have one answer: those of a symbol over intervals of a width that are answered alike, of a shape where one is
/// demanded.
#[derive(Clone, Copy, PartialEq, Eq)]
pub struct Family {
    pub site: Site,
    pub width: u16,
    pub symbol: u8,
    /// What is demanded of the trees below the root.
    pub demand: Demand,
}

/// The best of the trees of a family.
#[derive(Drop)]
pub struct Found {
    pub family: Family,
    pub grid: Grid,
}

/// The best trees over the last parts of a cut, side by side.
#[derive(Drop)]
pub enum LastParts {
    /// Those over the very last, by the number of what was found.
    One(usize),
    /// Those over several.
    Several(Grid),
}

/// All that was found so far.
#[derive(Drop)]
pub struct Memo {
    found: Vec<Found>,
    /// By the code of a family: the number of what was found for it.
    numbers: HashMap<u64, usize>,
}

#[inline(always)]
fn site_code(site: Site) -> u64
    ensures { result ≡ site_code site }
{
    match site {
        Site::From(place) => u64::from(place) + 2,
        Site::Wherever(Quiet::Sounding) => 1,
        Site::Wherever(Quiet::Silent) => 0,
    }
}

#[inline(always)]
fn demand_code(demand: Demand) -> u32
    ensures { result ≡ demand_code demand }
{
    match demand {
        Demand::Any => 0,
        Demand::Nothing => 1,
        Demand::Shapes(number) => u32::try_from(number).unwrap_or(u32::MAX).saturating_add(2),
    }
}

/// The code of a family, which says its interval, its symbol and its part of the pin. Where two families had one, what is
/// found would be looked at again, and searched again.
pub fn code_of(family: Family) -> u64
    ensures { result ≡ family_code family }
{
    site_code(family.site) << 52
        | u64::from(family.width) << 40
        | u64::from(family.symbol) << 32
        | u64::from(demand_code(family.demand))
}

impl Memo {
    /// Nothing yet.
    pub fn new(alloc: Global) -> Memo
        ensures nothing { result.found.items ≡ [] }
    {
        Memo {
            found: Vec::new(alloc),
            numbers: HashMap::new(alloc),
        }
    }

    /// The number of what was found for the family, if anything was.
    pub fn find(&self, family: Family) -> Option<usize>
        ensures { MatchOption result (IsUnknown self.now family) (IsKnownAs self.now family) }
    {
        let Some(number) = self.numbers.get(&code_of(family)) else {
            return None;
        };
        let Some(found) = self.found.get(*number) else {
            return None;
        };
        if found.family == family {
            Some(*number)
        } else {
            None
        }
    }

    /// What was found under a number.
    pub fn grid(&self, number: usize) -> &Grid
        requires { number < length self.now.found.items }
        ensures { (x : Found) → slice_get self.now.found.items number ≡ Some x → x.grid ≡ result.now }
    {
        &self.found[number].grid
    }

    /// What was found under a number, of which the rest is forgotten.
    pub fn take(self, number: usize) -> Grid
        requires { number < length self.found.items }
        ensures { (x : Found) → slice_get self.found.items number ≡ Some x → x.grid ≡ result }
    {
        let mut found = self.found;
        found.swap_remove(number).grid
    }

    /// The trees over the last parts of a cut.
    pub fn grid_of<'a>(&'a self, parts: &'a LastParts) -> &'a Grid
        requires { AreThere self.now.found.items parts.now }
        ensures { IsGridOf self.now.found.items parts.now result.now }
    {
        match parts {
            LastParts::One(number) => self.grid(*number),
            LastParts::Several(grid) => grid,
        }
    }

    /// Keeps what was found, and answers its number.
    pub fn keep(&mut self, family: Family, grid: Grid) -> Result<usize, AllocError>
        ensures found { OnOk result (AddsFound self.old.found.items self.new.found.items family grid) }
        ensures number { IfOk result (λ n. n ≡ length self.old.found.items) }
        ensures known { IfOk result (IsKnownAs self.new family) }
        ensures others { OnOk result (KeepsKnown self.old self.new family) }
    {
        let number = self.found.len();
        self.numbers.insert(code_of(family), number)?;
        self.found.push(Found { family, grid })?;
        Ok(number)
    }
}
