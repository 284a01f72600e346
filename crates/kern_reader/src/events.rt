ghost use Rattle.durations.specs.Value as lengths;
ghost use Rattle.kern_reader.specs.Columns.{token_values};
ghost use Rattle.kern_reader.specs.Events as definitions;
ghost use Rattle.kern_reader.specs.Events.{AddsColumn, AddsEvent, IsSpanHere, IsWalk, Passes, tied_values};
ghost use Rattle.kern_reader.specs.Score.{IsColumnOn};
ghost use Rattle.kern_reader.specs.Tokens.{IsWellToken};
ghost use Rattle.text_words.specs.Values.{IsWellValue};
ghost use Rattle.std.specs.Prelude.{◌≡◌, ◌≤◌, ◌<◌, ◌+◌, ◌*◌, ◌^◌, [], ℕ, IfOk, OnOk, length, sum_by};

use crate::grid::{token_value, width};
use crate::place::{bar_parts, frac};
use crate::score::KernScore;
use crate::spine::marks_tie;
use crate::token::{Token, Writing};
use durations::Grid;
use rhythm_base::{Graces, Keys, Span};
use std::alloc::{AllocError, Global};
use voice_events::KernEvent;

/// Where in a column the reading of its spans is.
#[derive(Drop)]
pub(crate) struct Walk {
    /// The start of the bar, in 64 parts of a whole note.
    pub(crate) start: u64,
    /// The length of the bar, in 64 parts of a whole note.
    pub(crate) bar: u64,
    /// The place in the bar, in parts of the grid.
    pub(crate) place: u64,
    /// The grace chords that wait for their main note.
    pub(crate) graces: Vec<Keys>,
}

/// Whether the token does not end a tie.
fn holds_tie(token: Token) -> bool
    ensures { result ≡ definitions.holds_tie token }
{
    match token {
        Token::Bar(_signature) => true,
        Token::Null => true,
        Token::Rest(_value) => false,
        Token::Grace(_keys) => true,
        Token::Chord(writing, _keys) => marks_tie(writing.tie),
    }
}

/// How many parts of the grid the value of a token is long, 0 where it has none.
fn token_width(token: Token, grid: Grid) -> u64
    requires { IsWellToken token }
    ensures width { result ≡ sum_by (lengths.width grid) (token_values token) }
    ensures few { result ≤ 7 * grid }
{
    match token_value(token) {
        Some(value) => width(value, grid),
        None => 0,
    }
}

/// How long the tie goes on over these tokens, in parts of the grid.
fn tie_length(tokens: &[Token], grid: Grid) -> u64
    requires on { IsColumnOn grid tokens.now }
    requires short { length tokens.now < 2 ^ 32 }
    ensures length { result ≡ sum_by (lengths.width grid) (tied_values tokens.now) }
    ensures few { result ≤ 7 * grid * length tokens.now }
{
    let mut total = 0;
    'tokens: for token in tokens {
        if !holds_tie(*token) {
            return total;
        }
        total += token_width(*token, grid);
    }
    total
}

impl Walk {
    /// The beginning of a column.
    pub(crate) fn new(alloc: Global) -> Walk
        ensures { (grid : ℕ) → IsWalk grid [] result }
    {
        Walk {
            start: 0,
            bar: 0,
            place: 0,
            graces: Vec::new(alloc),
        }
    }

    /// Passes a token.
    pub(crate) fn step(&mut self, token: Token, grid: Grid) -> Result<(), AllocError>
        requires well { IsWellToken token }
        requires place { self.old.place < 2 ^ 60 }
        requires start { self.old.start + self.old.bar < 2 ^ 60 }
        ensures { OnOk result (Passes grid token self.old self.new) }
    {
        match token {
            Token::Bar(signature) => {
                self.start += self.bar;
                self.bar = bar_parts(signature);
                self.place = 0;
                self.graces.clear();
                Ok(())
            }
            Token::Null => Ok(()),
            Token::Rest(value) => {
                self.place += width(value, grid);
                self.graces.clear();
                Ok(())
            }
            Token::Grace(keys) => {
                self.graces.push(keys)?;
                Ok(())
            }
            Token::Chord(writing, _keys) => {
                self.place += width(writing.value, grid);
                self.graces.clear();
                Ok(())
            }
        }
    }

    /// The span that begins here with a chord, before these tokens.
    fn span(
        &self,
        alloc: Global,
        writing: Writing,
        keys: Keys,
        after: &[Token],
        grid: Grid,
    ) -> Result<Span, AllocError>
        requires well { IsWellValue writing.value }
        requires on { IsColumnOn grid after.now }
        requires short { length after.now < 2 ^ 32 }
        requires small { grid * self.now.start + 64 * self.now.place < 2 ^ 63 }
        ensures { IfOk result (λ x. IsSpanHere grid self.now writing keys after.now x) }
    {
        let parts = grid.count();
        let start = frac(parts * self.start + 64 * self.place, 64 * parts);
        let len = frac(width(writing.value, grid) + tie_length(after, grid), parts);
        let graces = Graces::of(Vec::from_slice(alloc, &self.graces)?);
        Ok(Span {
            start,
            len,
            keys,
            graces,
            short: writing.short,
        })
    }
}

/// Appends the event of the chord that begins with this token before those after it, where one does.
pub(crate) fn push_beginning(
    alloc: Global,
    spine: u8,
    walk: &Walk,
    token: Token,
    after: &[Token],
    grid: Grid,
    events: &mut Vec<KernEvent>,
) -> Result<(), AllocError>
    requires well { IsWellToken token }
    requires on { IsColumnOn grid after.now }
    requires short { length after.now < 2 ^ 32 }
    requires small { grid * walk.now.start + 64 * walk.now.place < 2 ^ 63 }
    ensures { OnOk result (AddsEvent grid spine walk.now token after.now events.old.items events.new.items) }
{
    match token {
        Token::Chord(writing, keys) => {
            if marks_tie(writing.tie) {
                return Ok(());
            }
            let span = walk.span(alloc, writing, keys, after, grid)?;
            events.push(KernEvent { spine, span })?;
            Ok(())
        }
        _ => Ok(()),
    }
}

/// Appends the events of a column.
fn push_events(
    alloc: Global,
    spine: u8,
    tokens: &[Token],
    grid: Grid,
    events: &mut Vec<KernEvent>,
) -> Result<(), AllocError>
    requires on { IsColumnOn grid tokens.now }
    requires short { length tokens.now < 2 ^ 32 }
    ensures { OnOk result (AddsColumn grid spine tokens.now events.old.items events.new.items) }
{
    let mut walk = Walk::new(alloc);
    let mut later = tokens;
    'tokens: while let [token, after @ ..] = later {
        push_beginning(alloc, spine, &walk, *token, after, grid, events)?;
        walk.step(*token, grid)?;
        later = after;
    }
    Ok(())
}

impl KernScore {
    ghost use Rattle.kern_reader.specs.Events.{AreEvents};

    /// The sounding spans of the score, by spine and then by start.
    pub fn events(&self, alloc: Global) -> Result<Vec<KernEvent>, AllocError>
        ensures { IfOk result (λ v. AreEvents self.now v.items) }
    {
        let mut events = Vec::new(alloc);
        'columns: for (number, column) in self.columns.iter().enumerate() {
            push_events(
                alloc,
                number as u8 + 1,
                column.as_slice(),
                self.grid,
                &mut events,
            )?;
        }
        Ok(events)
    }
}
