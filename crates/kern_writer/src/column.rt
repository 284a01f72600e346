ghost use Rattle.kern_writer.specs.Columns.{AreTokens, RiseFrom, first_place, tokens_after};
ghost use Rattle.kern_writer.specs.Records.{grace_at, grace_tokens, main_column, token_at};
ghost use Rattle.derivation.specs.Score.{IsScoreBar};
ghost use Rattle.score_words.specs.Writing.{Writes};
ghost use Rattle.std.specs.Prelude.{◌≡◌, is_some, ◌≤◌, ◌+◌, All, IfOk, length, map, slice_get, sum};

use crate::token::Token;
use derivation::ScoreBar;
use rhythm_base::{Sound, Units};
use score_words::has_flats;
use std::alloc::{AllocError, Global};
use std::marker::Model;
use voice_values::{VoiceValue, bar_values};

/// The column of a voice in a bar: the values whose tokens are still to be written.
#[derive(Drop)]
pub(crate) struct Column<'a> {
    values: Vec<VoiceValue<'a>>,
    /// How many of them are written.
    written: usize,
    /// Black keys are flats.
    flats: bool,
    /// The value after the bar goes on with the span of the last one in it.
    goes_on: bool,
}

impl<'a> Model for Column<'a> {
    ghost use Rattle.std.specs.Prelude.{List, ◌≤◌, drop, length};
    ghost use Rattle.kern_writer.specs.Tokens.{Token};
    ghost use Rattle.kern_writer.specs.Columns.{column_tokens};

    ghost Value = { List Token };

    ghost view = { λ c. column_tokens c.flats c.goes_on (drop c.written c.values.items) };

    ghost invariant = { λ c. c.written ≤ length c.values.items };
}

impl<'a> Column<'a> {
    /// The column of the sounds of a bar, which fill it. The value after them goes on with the span of the last one or not.
    pub(crate) fn of(
        alloc: Global,
        resolution: Units,
        bar: &ScoreBar,
        sounds: &'a [Sound],
        goes_on: bool,
    ) -> Result<Column<'a>, AllocError>
        requires bar { IsScoreBar bar.now }
        requires some { All (λ s. 1 ≤ s.width) sounds.now }
        requires full { sum (map (λ s. s.width) sounds.now) ≡ resolution }
        ensures { IfOk result (λ c. AreTokens resolution bar.now goes_on sounds.entry.now c) }
    {
        let values = bar_values(alloc, resolution, bar, sounds)?;
        Ok(Column {
            values,
            written: 0,
            flats: has_flats(bar),
            goes_on,
        })
    }

    /// The next token.
    pub(crate) fn next<'c>(&'c self) -> Option<Token<'c, 'a>>
        ensures { result ≡ slice_get self.now 0 }
    {
        let flats = self.flats;
        match &self.values[self.written..] {
            [] => None,
            [value] => Some(Token {
                value,
                next: self.goes_on,
                flats,
            }),
            [value, after, ..] => Some(Token {
                value,
                next: after.goes_on(),
                flats,
            }),
        }
    }

    /// The token at a place that none is before.
    pub(crate) fn token_at<'c>(&'c self, place: u64) -> Option<Token<'c, 'a>>
        requires { RiseFrom place self.now }
        ensures { result ≡ token_at place self.now }
    {
        match self.next() {
            Some(token) if token.place() == place => Some(token),
            _ => None,
        }
    }

    /// Whether a token stands at a place that none is before.
    fn has_token(&self, place: u64) -> bool
        requires { RiseFrom place self.now }
        ensures { result ≡ is_some (token_at place self.now) }
    {
        self.token_at(place).is_some()
    }

    /// Passes over the token at a place that none is before.
    pub(crate) fn pass(&mut self, place: u64)
        requires { RiseFrom place self.old }
        ensures { self.new ≡ tokens_after place self.old }
    {
        if self.has_token(place) {
            self.written += 1;
        }
    }

    /// The place of the next token.
    pub(crate) fn place(&self) -> Option<u64>
        ensures { result ≡ first_place self.now }
    {
        match self.next() {
            Some(token) => Some(token.place()),
            None => None,
        }
    }

    /// How many grace tokens stand before the token at a place that none is before.
    pub(crate) fn grace_count(&self, place: u64) -> usize
        requires { RiseFrom place self.now }
        ensures { result ≡ length (grace_tokens (token_at place self.now)) }
    {
        match self.token_at(place) {
            Some(token) => token.grace_count(),
            None => 0,
        }
    }

    /// Appends what stands in a grace record of a place that no token is before, before so many later ones and the main one.
    pub(crate) fn push_grace(
        &self,
        text: &mut Vec<u8>,
        place: u64,
        later: usize,
    ) -> Result<(), AllocError>
        requires { RiseFrom place self.now }
        ensures { Writes (grace_at place (later + 1) self.now) text.old result text.new }
    {
        match self.token_at(place) {
            Some(token) => token.push_grace_column(text, later),
            None => text.extend_from_slice(b"."),
        }
    }

    /// Appends what stands in the main record of a place that no token is before.
    pub(crate) fn push_main(&self, text: &mut Vec<u8>, place: u64) -> Result<(), AllocError>
        requires { RiseFrom place self.now }
        ensures { Writes (main_column (token_at place self.now)) text.old result text.new }
    {
        match self.token_at(place) {
            Some(token) => token.push_main(text),
            None => text.extend_from_slice(b"."),
        }
    }
}
