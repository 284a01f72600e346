use crate::name::Name;
use crate::rule::Rule;
use std::marker::Model;

/// The root symbol of the bars of one signature.
#[derive(Clone, Copy, Debug, PartialEq, Eq)]
pub struct Start {
    /// Beats of a bar, 1 to 64.
    pub num: u8,
    /// The value of a beat as the part of a whole note, a power of two up to 64.
    pub den: u8,
    /// The number of the symbol's name.
    pub symbol: u8,
}

/// A weighted rhythm grammar, as a grammar file writes it.
#[derive(Drop)]
pub struct Grammar {
    /// 1, or 2 where cuts may be unequal and early and late onsets are weighed apart.
    pub version: u8,
    /// The number of units in every bar, 1 to 960, and to 96 in version 2.
    pub resolution: u16,
    /// Notes whose onsets are at most so many microseconds after a chord's first onset join that chord.
    pub window: u32,
    /// The cost of one 960th of a quarter by which an onset is notated later than it was played, 0 to 1,000.
    pub early: u32,
    /// The cost of one 960th of a quarter by which an onset is notated earlier than it was played, 0 to 1,000.
    pub late: u32,
    /// The names of the symbols, in the order of their first rule.
    pub names: Vec<Name>,
    /// The root symbols, at most one for a signature.
    pub starts: Vec<Start>,
    /// The rules, in the order of the file.
    pub rules: Vec<Rule>,
}

impl Model for Grammar {
    ghost use Rattle.rhythm_base.specs.Grammar.{Grammar};

    ghost Value = { Grammar };

    ghost view = { λ g. record {
      version = g.version;
      resolution = g.resolution;
      window = g.window;
      early = g.early;
      late = g.late;
      names = g.names.items;
      starts = g.starts.items;
      rules = g.rules.items;
    } };
}
