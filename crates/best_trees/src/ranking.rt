ghost use Rattle.best_trees.specs.Firsts.{
  AreAddable,
  AreCheaper,
  AreKeptKeys,
  HasOffers,
  HasSums,
  IsBefore,
  IsPastUnless,
  IsPlaceFor,
  key_of,
  offered,
};
ghost use Rattle.rhythm_base.specs.Ranked.{key_cmp, list_cmp};
ghost use Rattle.std.specs.Prelude.{
  ◌≡◌,
  ◌↔◌,
  ◌-◌,
  ◌++◌,
  ◌<◌,
  ◌≤◌,
  ◌^◌,
  [],
  AllPairs,
  IfOk,
  IsTrue,
  OnOk,
  length,
  take,
};

use std::alloc::{AllocError, Global};
use std::cmp::Ordering;
use std::marker::Model;

/// A tree, or trees side by side: what they cost, and the numbers of their rules in preorder.
#[derive(Drop)]
pub struct Entry {
    cost: u64,
    rules: Vec<u16>,
}

impl Model for Entry {
    ghost use Rattle.rhythm_base.specs.Ranked.{Key};

    ghost Value = { Key };

    ghost view = { λ e. (e.cost, e.rules.items) };
}

impl Entry {
    pub fn cost(&self) -> u64
        ensures { result ≡ self.now.0 }
    {
        self.cost
    }

    pub fn rules(&self) -> &[u16]
        ensures { result.now ≡ self.now.1 }
    {
        self.rules.as_slice()
    }
}

/// How a list in two pieces compares with another.
fn order_of_lists(first: &[u16], last: &[u16], other: &[u16]) -> Ordering
    ensures { result ≡ list_cmp (first.now ++ last.now) other.now }
{
    match first {
        [] => last.cmp(other),
        [rule, rules @ ..] => match other {
            [] => Ordering::Greater,
            [one, more @ ..] => match rule.cmp(one) {
                Ordering::Equal => order_of_lists(rules, last, more),
                order => order,
            },
        },
    }
}

/// How a list in three pieces compares with another.
fn order_of_pieces(top: &[u16], first: &[u16], last: &[u16], other: &[u16]) -> Ordering
    ensures { result ≡ list_cmp ((top.now ++ first.now) ++ last.now) other.now }
{
    match top {
        [] => order_of_lists(first, last, other),
        [rule, rules @ ..] => match other {
            [] => Ordering::Greater,
            [one, more @ ..] => match rule.cmp(one) {
                Ordering::Equal => order_of_pieces(rules, first, last, more),
                order => order,
            },
        },
    }
}

/// How trees of this cost, with the rules of a list in three pieces, compare with the entry.
fn order(cost: u64, top: &[u16], first: &[u16], last: &[u16], entry: &Entry) -> Ordering
    ensures { result ≡ key_cmp (key_of cost top.now first.now last.now) entry.now }
{
    match cost.cmp(&entry.cost()) {
        Ordering::Equal => order_of_pieces(top, first, last, entry.rules()),
        order => order,
    }
}

/// How many of the entries come before such trees; none where these are there already.
fn place_of(entries: &[Entry], cost: u64, top: &[u16], first: &[u16], last: &[u16]) -> Option<usize>
    requires { AllPairs IsBefore entries.now }
    ensures { IsPlaceFor entries.now (key_of cost top.now first.now last.now) result }
{
    let mut place = entries.len();
    'back: while place > 0 {
        match order(cost, top, first, last, &entries[place - 1]) {
            Ordering::Less => place -= 1,
            Ordering::Equal => return None,
            Ordering::Greater => return Some(place),
        }
    }
    Some(0)
}

/// The best trees of an interval for one number of chords carried in and one carried out, in order.
#[derive(Drop)]
pub struct Ranking {
    entries: Vec<Entry>,
}

impl Model for Ranking {
    ghost use Rattle.rhythm_base.specs.Ranked.{Key};
    ghost use Rattle.std.specs.Prelude.{List};

    ghost Value = { List Key };

    ghost view = { λ r. r.entries.items };
}

impl Ranking {
    /// No trees.
    pub fn none(alloc: Global) -> Ranking
        ensures { result ≡ [] }
    {
        Ranking {
            entries: Vec::new(alloc),
        }
    }

    /// The entries, first to last.
    pub fn entries(&self) -> &[Entry]
        ensures { result.now ≡ self.now }
    {
        self.entries.as_slice()
    }

    /// There are no trees.
    pub fn is_empty(&self) -> bool
        ensures { IsTrue result ↔ (self.now ≡ []) }
    {
        self.entries.is_empty()
    }

    /// An empty list with room. The last of `count` entries gives way, and its list is emptied.
    fn room(&mut self, alloc: Global, count: usize) -> Vec<u16>
        requires few { length self.old ≤ count }
        ensures list { result.items ≡ [] }
        ensures entries { self.new ≡ take (count - 1) self.old }
    {
        if self.entries.len() < count {
            return Vec::new(alloc);
        }
        match self.entries.pop() {
            Some(last) => {
                let mut rules = last.rules;
                rules.clear();
                rules
            }
            None => Vec::new(alloc),
        }
    }

    /// Offers trees of this cost, whose rules are those of the three lists. They are taken in where they are among the first
    /// `count`, and not there yet. Answers whether others after them may be among these too.
    pub fn offer(
        &mut self,
        alloc: Global,
        count: usize,
        cost: u64,
        top: &[u16],
        first: &[u16],
        last: &[u16],
    ) -> Result<bool, AllocError>
        requires { AreKeptKeys count self.old }
        ensures kept { OnOk result (self.new ≡ offered count (key_of cost top.now first.now last.now) self.old) }
        ensures past { IfOk result (IsPastUnless count (key_of cost top.now first.now last.now) self.old) }
    {
        let Some(place) = place_of(self.entries.as_slice(), cost, top, first, last) else {
            return Ok(true);
        };
        if place >= count {
            return Ok(false);
        }
        let mut rules = self.room(alloc, count);
        rules.reserve(
            top.len()
                .saturating_add(first.len())
                .saturating_add(last.len()),
        )?;
        rules.extend_from_slice(top)?;
        rules.extend_from_slice(first)?;
        rules.extend_from_slice(last)?;
        self.entries.insert(place, Entry { cost, rules })?;
        Ok(true)
    }

    /// Offers each of the others at this cost more, with these rules before its own.
    pub fn offer_each(
        &mut self,
        alloc: Global,
        count: usize,
        cost: u64,
        top: &[u16],
        rules: &[u16],
        others: &Ranking,
    ) -> Result<(), AllocError>
        requires kept { AreKeptKeys count self.old }
        requires cost { cost < 2 ^ 63 }
        requires others { AreAddable others.now }
        ensures { OnOk result (HasOffers count (cost, top.now ++ rules.now) others.now self.old self.new) }
    {
        'others: for other in &others.entries {
            if !self.offer(alloc, count, cost + other.cost(), top, rules, other.rules())? {
                return Ok(());
            }
        }
        Ok(())
    }

    /// Whether there are `count` entries, each of a lower cost.
    fn are_cheaper(&self, count: usize, cost: u64) -> bool
        requires { AreKeptKeys count self.now }
        ensures { IsTrue result → AreCheaper count cost self.now }
    {
        match self.entries.last() {
            Some(last) => self.entries.len() >= count && last.cost() < cost,
            None => false,
        }
    }

    /// Offers each of the trees on the left followed by each of those on the right, at this cost more, with these rules before
    /// theirs.
    pub fn offer_sums(
        &mut self,
        alloc: Global,
        count: usize,
        cost: u64,
        top: &[u16],
        left: &Ranking,
        right: &Ranking,
    ) -> Result<(), AllocError>
        requires kept { AreKeptKeys count self.old }
        requires cost { cost < 2 ^ 62 }
        requires left { AreAddable left.now }
        requires right { AreAddable right.now }
        ensures { OnOk result (HasSums count (cost, top.now) left.now right.now self.old self.new) }
    {
        let Some(least) = right.entries.first() else {
            return Ok(());
        };
        'firsts: for first in &left.entries {
            let cost = cost + first.cost();
            if self.are_cheaper(count, cost + least.cost()) {
                return Ok(());
            }
            self.offer_each(alloc, count, cost, top, first.rules(), right)?;
        }
        Ok(())
    }
}
