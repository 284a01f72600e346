ghost use Rattle.rhythm_base.specs.declared.limits.TheConstants.{MOST_NAMES};
ghost use Rattle.grammar_file.specs.Lines.{texts};
ghost use Rattle.grammar_file.specs.Names.{has_room, with_name};
ghost use Rattle.grammar_file.specs.Symbols.{known_symbol};
ghost use Rattle.grammar_file.specs.declared.fault.GrammarWhat.TheVariants.{Memory};
ghost use Rattle.std.specs.Prelude.{◌≡◌, ◌≤◌, [], IfErr, IfOk, OnOk, length};

use crate::fault::GrammarWhat;
use indexmap::IndexSet;
use rhythm_base::Name;
use std::alloc::{AllocError, Global};
use std::hash::BuildHasherDefault;
use std::marker::Model;

/// The names on the left sides of rules, each once, in the order of their first appearance. A fixed hasher serves, since there
/// are at most 64.
#[derive(Drop)]
pub(crate) struct Names<'a> {
    set: IndexSet<&'a [u8]>,
}

impl<'a> Model for Names<'a> {
    ghost use Rattle.std.specs.Prelude.{ℕ, List, map};

    ghost Value = { List (List ℕ) };

    ghost view = { λ n. map (λ x. x.now) n.set.keys };
}

impl<'a> Names<'a> {
    /// No name.
    pub(crate) fn new(alloc: Global) -> Names<'a>
        ensures { result ≡ [] }
    {
        Names {
            set: IndexSet::with_hasher(alloc, BuildHasherDefault::new()),
        }
    }

    /// Whether the name is one of them, or may be the next one.
    pub(crate) fn has_room_for(&self, name: &[u8]) -> bool
        ensures { result ≡ has_room self.now name.now }
    {
        self.set.contains(name) || self.set.len() < 64
    }

    /// Appends a name, if it is not one of them.
    pub(crate) fn insert(&mut self, name: &'a [u8]) -> Result<(), AllocError>
        ensures { OnOk result (self.new ≡ with_name self.old name.now) }
    {
        self.set.insert(name)?;
        Ok(())
    }

    /// The symbol of a name.
    pub(crate) fn symbol(&self, name: &[u8]) -> Result<u8, GrammarWhat>
        requires { length self.now ≤ MOST_NAMES }
        ensures { result ≡ known_symbol self.now name.now }
    {
        match self.set.get_index_of(name) {
            Some(symbol) => Ok(symbol as u8),
            None => Err(GrammarWhat::UnknownName),
        }
    }

    /// Copies of the names.
    pub(crate) fn owned(&self, alloc: Global) -> Result<Vec<Name>, GrammarWhat>
        ensures names { IfOk result (λ v. v.items ≡ self.now) }
        ensures err { IfErr result (λ what. what ≡ Memory) }
    {
        owned_names(alloc, self.set.as_slice())
    }
}

/// Copies of these names.
fn owned_names(alloc: Global, names: &[&[u8]]) -> Result<Vec<Name>, GrammarWhat>
    ensures names { IfOk result (λ v. v.items ≡ texts names.now) }
    ensures err { IfErr result (λ what. what ≡ Memory) }
{
    let mut owned = Vec::with_capacity(alloc, names.len())?;
    for name in names {
        owned.push(Name::of(Vec::from_slice(alloc, name)?))?;
    }
    Ok(owned)
}
