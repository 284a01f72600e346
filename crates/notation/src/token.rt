ghost use Rattle.notation.specs.Rests as rests;
ghost use Rattle.notation.specs.Tokens as tokens;
ghost use Rattle.std.specs.Prelude.{◌≡◌, ◌≤◌, [], drop, false, length, true};

use rhythm_base::Keys;
use std::marker::Model;

/// A token of a bar of a voice, or several that are joined.
#[derive(Drop)]
pub(crate) struct Token<'a> {
    /// Where it starts, in parts from the start of its bar.
    pub(crate) start: u64,
    /// Where it ends.
    pub(crate) end: u64,
    /// None of a rest.
    pub(crate) keys: Keys,
    /// The grace chords before it.
    pub(crate) graces: &'a [Keys],
    /// It is marked short.
    pub(crate) is_short: bool,
    /// A tie comes to it.
    pub(crate) comes: bool,
    /// A tie goes on from it.
    pub(crate) goes: bool,
}

impl<'a> Model for Token<'a> {
    ghost use Rattle.notation.specs.Tokens as tokens;

    ghost Value = { tokens.Token };

    ghost view = { λ t. record {
      start = t.start;
      end = t.end;
      keys = t.keys;
      graces = t.graces.now;
      short = t.is_short;
      comes = t.comes;
      goes = t.goes;
    } };
}

impl<'a> Token<'a> {
    /// Whether it is a rest.
    pub(crate) fn is_silent(&self) -> bool
        ensures { result ≡ tokens.is_silent self.now }
    {
        self.keys == Keys::none()
    }

    /// How many parts it is long.
    pub(crate) fn length(&self) -> u64
        requires { self.now.start ≤ self.now.end }
        ensures { result ≡ tokens.token_length self.now }
    {
        self.end - self.start
    }

    /// The token up to this place, where it goes on or not.
    pub(crate) fn until(&self, end: u64, goes: bool) -> Token<'a>
        ensures { result ≡ record self.now { end = end; goes = goes } }
    {
        Token {
            start: self.start,
            end,
            keys: self.keys,
            graces: self.graces,
            is_short: self.is_short,
            comes: self.comes,
            goes,
        }
    }

    /// What is left of the token from this place on, to which a tie comes.
    pub(crate) fn after(&self, start: u64) -> Token<'a>
        ensures { result ≡ record self.now { start = start; graces = []; short = false; comes = true } }
    {
        Token {
            start,
            end: self.end,
            keys: self.keys,
            graces: &[],
            is_short: false,
            comes: true,
            goes: self.goes,
        }
    }

    /// The token with those after it that are joined to it.
    pub(crate) fn joined(&self, more: &[Token]) -> Token<'a>
        ensures { result ≡ rests.joined (length more.now) self.now more.now }
    {
        match more.last() {
            None => self.until(self.end, self.goes),
            Some(last) => self.until(last.end, last.goes),
        }
    }
}

/// The tokens after so many of them.
pub(crate) fn past<'b, 'a>(tokens: &'b [Token<'a>], count: usize) -> &'b [Token<'a>]
    requires { count ≤ length tokens.now }
    ensures { result.now ≡ drop count tokens.entry.now }
{
    &tokens[count..]
}
