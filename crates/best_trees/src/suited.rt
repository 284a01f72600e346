ghost use Rattle.best_trees.specs.Suited.{AreAllSuited, AreAllThatSuit, AreKnownToSuit};
ghost use Rattle.rhythm_base.specs.Readable.{IsReadable};
ghost use Rattle.std.specs.Prelude.{◌≡◌, [], IfOk, IfSome, OnOk, length};

use grammar_plan::suits;
use rhythm_base::Grammar;
use std::alloc::{AllocError, Global};
use std::collections::HashMap;

/// The numbers of the rules that suit a width and a symbol, in order.
#[derive(Drop)]
pub struct SuitedRules {
    pub width: u16,
    pub symbol: u8,
    pub numbers: Vec<u16>,
}

/// The same for each width and symbol that was asked for.
#[derive(Drop)]
pub struct Suited {
    found: Vec<SuitedRules>,
    /// By the code of a width and a symbol: where they are.
    places: HashMap<u32, usize>,
}

fn code_of(width: u16, symbol: u8) -> u32 {
    u32::from(width) << 8 | u32::from(symbol)
}

/// The numbers of the rules that suit a width and a symbol.
pub fn suiting(
    alloc: Global,
    grammar: &Grammar,
    width: u16,
    symbol: u8,
) -> Result<Vec<u16>, AllocError>
    requires readable { IsReadable grammar.now }
    ensures { IfOk result (λ v. AreAllThatSuit grammar.now.rules (width, symbol) v.items) }
{
    let mut numbers = Vec::new(alloc);
    'rules: for number in 0..grammar.rules.len() as u16 {
        if suits(&grammar.rules[number as usize], width, symbol) {
            numbers.push(number)?;
        }
    }
    Ok(numbers)
}

impl Suited {
    /// None yet.
    pub fn new(alloc: Global) -> Suited
        ensures { result.found.items ≡ [] }
    {
        Suited {
            found: Vec::new(alloc),
            places: HashMap::new(alloc),
        }
    }

    /// Where the rules that suit are, where they were asked for.
    fn place_of(&self, width: u16, symbol: u8) -> Option<usize> {
        let place = *self.places.get(&code_of(width, symbol))?;
        let found = self.found.get(place)?;
        if found.width == width && found.symbol == symbol {
            Some(place)
        } else {
            None
        }
    }

    /// Where the rules that suit are. They are looked for once.
    pub fn ask(
        &mut self,
        alloc: Global,
        grammar: &Grammar,
        width: u16,
        symbol: u8,
    ) -> Result<usize, AllocError>
        requires readable { IsReadable grammar.now }
        requires suited { AreAllSuited grammar.now.rules self.old }
        ensures suited { OnOk result (AreAllSuited grammar.now.rules self.new) }
    {
        if let Some(place) = self.place_of(width, symbol) {
            return Ok(place);
        }
        let place = self.found.len();
        let numbers = suiting(alloc, grammar, width, symbol)?;
        self.places.insert(code_of(width, symbol), place)?;
        self.found.push(SuitedRules {
            width,
            symbol,
            numbers,
        })?;
        Ok(place)
    }

    /// How many rules are in a place.
    pub fn count(&self, place: usize) -> usize {
        match self.found.get(place) {
            None => 0,
            Some(found) => found.numbers.len(),
        }
    }

    /// The rule of a place with this index.
    pub fn rule(&self, place: usize, index: usize) -> Option<u16> {
        let found = self.found.get(place)?;
        found.numbers.get(index).copied()
    }

    /// The rules that suit, where they were asked for.
    pub fn rules(&self, width: u16, symbol: u8) -> Option<&[u16]>
        ensures { IfSome result (λ numbers. AreKnownToSuit self.now (width, symbol) numbers.now) }
    {
        let place = *self.places.get(&code_of(width, symbol))?;
        let found = self.found.get(place)?;
        if found.width == width && found.symbol == symbol {
            Some(found.numbers.as_slice())
        } else {
            None
        }
    }
}
