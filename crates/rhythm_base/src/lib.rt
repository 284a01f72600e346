//! The plain types of a transcription and the definitions that every layer cites: grammars, rhythm trees and their
//! leaves, notes and chords, bars, performances and edits. The definitions stand in specs/: what a derivation of a voice
//! is, when it fits, what it costs and which is the least. The code here holds values and compares them, no more.
#![tactic(auto)]

mod bar_fault;
mod bar_input;
mod best;
mod carry;
mod chord;
mod edit;
mod edit_fault;
mod event;
mod graces;
mod grammar;
mod inner;
mod keys;
mod kids;
mod limits;
mod name;
mod note;
mod notes;
mod performance;
mod pin;
mod portions;
mod rule;
mod rule_list;
mod shape;
mod shape_parse;
mod shape_text;
mod sound;
mod span;
mod tag;
mod tree;
mod tree_from_rules;
mod tree_shape;
mod units;
mod words;
mod workers;

pub use bar_fault::BarFault;
pub use bar_input::{BarInput, copied_pin};
pub use best::Best;
pub use carry::Carry;
pub use chord::Chord;
pub use edit::Edit;
pub use edit_fault::{EditFault, LimitKind};
pub use event::{Event, KeyMark, Signature, Tempo, What};
pub use graces::Graces;
pub use grammar::{Grammar, Start};
pub use inner::Inner;
pub use keys::Keys;
pub use kids::Kids;
pub use limits::{
    DEAREST_CELL, FARTHEST_CHORDS, FARTHEST_ONSET, HEAVIEST_ONSET, HEAVIEST_RULE, LATEST_EVENT,
    LATEST_TICK, LONGEST_GRAMMAR, LONGEST_MIDI, LONGEST_SCORE, LONGEST_SCRIPT, LONGEST_SCRIPT_LINE,
    MOST_BARS, MOST_CARRIED, MOST_CELLS, MOST_DIVISION, MOST_LEVELS_BELOW, MOST_NAMES, MOST_NOTES,
    MOST_PARTS, MOST_RULES, MOST_UNEQUAL_UNITS, MOST_UNITS, MOST_VOICES, MOST_WORKERS,
    SLOWEST_TEMPO, WIDEST_WINDOW,
};
pub use name::Name;
pub use note::{Bar, Note};
pub use notes::{Block, Notes};
pub use performance::Performance;
pub use pin::Pin;
pub use portions::Portions;
pub use rule::{Body, Ending, Rule};
pub use rule_list::RuleList;
pub use shape::{Node, Shape};
pub use shape_parse::ShapeFault;
pub use sound::{Sound, SoundKind};
pub use span::{Frac, Span};
pub use tag::Tag;
pub use tree::Tree;
pub use units::Units;
pub use words::Words;
pub use workers::Workers;
