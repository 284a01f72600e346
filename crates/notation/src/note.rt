use durations::Value;
use rhythm_base::Keys;
use std::marker::Model;

/// A note, a chord or a rest under its bracket: a value of a token of the **kern column.
#[derive(Drop)]
pub struct Note<'a> {
    /// How many parts of 1/(64 * resolution) of a whole note it lasts.
    pub duration: u64,
    /// How it is written: within a bracket of `actual` in the time of `normal` it lasts `normal`/`actual` of that.
    pub value: Value,
    /// None of a rest.
    pub keys: Keys,
    /// The grace chords before it.
    pub graces: &'a [Keys],
    /// It is marked short.
    pub is_short: bool,
    /// A tie comes to it from the note before.
    pub comes: bool,
    /// A tie goes on from it to the note after it.
    pub goes: bool,
}

impl<'a> Model for Note<'a> {
    ghost use Rattle.notation.specs.Notes as definitions;

    ghost Value = { definitions.Note };

    ghost view = { λ n. record {
      duration = n.duration;
      value = n.value;
      keys = n.keys;
      graces = n.graces.now;
      short = n.is_short;
      comes = n.comes;
      goes = n.goes;
    } };
}

/// How notes are written within a bracket: so many in the time of so many.
#[derive(Clone, Copy, Debug, PartialEq, Eq)]
pub struct Ratio {
    /// An odd number from 1 on; 1 where there is no bracket.
    pub actual: u64,
    /// The greatest power of two up to that.
    pub normal: u64,
}

/// The notes under one bracket, or under none where the ratio is 1 in the time of 1.
#[derive(Drop)]
pub struct Group<'a> {
    pub ratio: Ratio,
    pub notes: Vec<Note<'a>>,
}

impl<'a> Model for Group<'a> {
    ghost use Rattle.notation.specs.Notes as definitions;

    ghost Value = { definitions.Group };

    ghost view = { λ g. record { ratio = g.ratio; notes = g.notes.items } };
}

/// The groups of a bar of a voice: none of a bar of rests alone.
#[derive(Drop)]
pub struct BarGroups<'a> {
    pub groups: Vec<Group<'a>>,
}

impl<'a> Model for BarGroups<'a> {
    ghost use Rattle.std.specs.Prelude.{List};
    ghost use Rattle.notation.specs.Notes as definitions;

    ghost Value = { List definitions.Group };

    ghost view = { λ b. b.groups.items };
}
