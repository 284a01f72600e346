ghost use Rattle.grammar_file.specs.Lines.{texts};
ghost use Rattle.std.specs.Prelude.{◌≡◌, map};

use std::marker::Model;

/// A name where a line uses it.
#[derive(Drop)]
pub(crate) struct Word<'a> {
    bytes: &'a [u8],
}

impl<'a> Model for Word<'a> {
    ghost use Rattle.std.specs.Prelude.{ℕ, List};

    ghost Value = { List ℕ };

    ghost view = { λ w. w.bytes.now };
}

impl<'a> Word<'a> {
    /// The word with these bytes.
    pub(crate) fn of(bytes: &'a [u8]) -> Word<'a>
        ensures { result ≡ bytes.now }
    {
        Word { bytes }
    }

    /// The bytes of the word.
    pub(crate) fn as_slice(&self) -> &'a [u8]
        ensures { result.now ≡ self.now }
    {
        self.bytes
    }
}

/// Words of a line, in their order.
#[derive(Drop)]
pub(crate) struct Words<'a> {
    words: Vec<&'a [u8]>,
}

impl<'a> Model for Words<'a> {
    ghost use Rattle.std.specs.Prelude.{ℕ, List, map};

    ghost Value = { List (List ℕ) };

    ghost view = { λ w. map (λ x. x.now) w.words.items };
}

impl<'a> Words<'a> {
    /// The list of these words.
    pub(crate) fn of(words: Vec<&'a [u8]>) -> Words<'a>
        ensures { result ≡ texts words.entry.items }
    {
        Words { words }
    }

    /// The words, first to last.
    pub(crate) fn as_slice(&self) -> &[&'a [u8]]
        ensures { texts result.now ≡ self.now }
    {
        self.words.as_slice()
    }
}

/// Sizes of parts, each with the name of the part's symbol, in the order of the line.
#[derive(Drop)]
pub(crate) struct Sizes<'a> {
    parts: Vec<(u8, &'a [u8])>,
}

impl<'a> Model for Sizes<'a> {
    ghost use Rattle.std.specs.Prelude.{ℕ, List, map};

    ghost Value = { List (ℕ × List ℕ) };

    ghost view = { λ w. map (λ x. (x.0, x.1.now)) w.parts.items };
}

impl<'a> Sizes<'a> {
    /// The list of these sizes and names.
    pub(crate) fn of(parts: Vec<(u8, &'a [u8])>) -> Sizes<'a>
        ensures { result ≡ map (λ x. (x.0, x.1.now)) parts.entry.items }
    {
        Sizes { parts }
    }

    /// The sizes and names, first to last.
    pub(crate) fn as_slice(&self) -> &[(u8, &'a [u8])]
        ensures { map (λ x. (x.0, x.1.now)) result.now ≡ self.now }
    {
        self.parts.as_slice()
    }
}
