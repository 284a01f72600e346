ghost use Rattle.kern_reader.specs.Columns as definitions;
ghost use Rattle.kern_reader.specs.Columns.{spine_after};
ghost use Rattle.kern_reader.specs.Tokens.{IsWellToken};
ghost use Rattle.std.specs.Prelude.{◌≡◌, ◌<◌, ◌^◌, ◌+◌, ◌*◌, ◌++◌, ◌∷◌, [], All, IfOk, OnOk, if◌then◌else◌, length, map, replicate};
ghost use Rattle.std.specs.List.{zip};
ghost use Rattle.kern_reader.specs.declared.token.Token.TheVariants as token;

use crate::grid::width;
use crate::token::{TieMark, Token, Writing};
use durations::Grid;
use rhythm_base::Keys;
use std::alloc::{AllocError, Global};
use std::marker::Model;
use text_words::TimeSignature;

/// What a spine holds from its head on.
#[derive(Drop)]
pub(crate) struct Column {
    tokens: Vec<Token>,
}

impl Model for Column {
    ghost use Rattle.std.specs.Prelude.{List};
    ghost use Rattle.kern_reader.specs.declared.token.Token.{Token};

    ghost Value = { List Token };

    ghost view = { λ c. c.tokens.items };
}

/// What decides over the next token of a spine.
#[derive(Clone, Copy)]
pub(crate) struct Spine {
    /// Where in its bar it is, in parts of the grid.
    pub(crate) place: u64,
    /// The keys of its open tie.
    pub(crate) tied: Option<Keys>,
    /// How many grace chords wait for their main note.
    pub(crate) graces: u64,
}

impl Column {
    /// Nothing yet.
    pub(crate) fn new(alloc: Global) -> Column
        ensures { result ≡ [] }
    {
        Column {
            tokens: Vec::new(alloc),
        }
    }

    /// Adds a token.
    pub(crate) fn push(&mut self, token: Token) -> Result<(), AllocError>
        ensures { OnOk result (self.new ≡ self.old ++ token ∷ []) }
    {
        self.tokens.push(token)?;
        Ok(())
    }

    /// The tokens, first to last.
    pub(crate) fn as_slice(&self) -> &[Token]
        ensures { result.now ≡ self.now }
    {
        self.tokens.as_slice()
    }
}

/// Whether the mark continues a tie.
pub(crate) fn marks_tie(tie: TieMark) -> bool
    ensures { result ≡ definitions.marks_tie tie }
{
    match tie {
        TieMark::Absent => false,
        TieMark::GoesOn => true,
        TieMark::Ends => true,
    }
}

/// Whether the mark leaves a tie open.
fn goes_on(tie: TieMark) -> bool
    ensures { result ≡ definitions.tie_goes_on tie }
{
    match tie {
        TieMark::Absent => false,
        TieMark::GoesOn => true,
        TieMark::Ends => false,
    }
}

/// The keys that a chord leaves tied.
fn left_open(writing: Writing, keys: Keys) -> Option<Keys>
    ensures { result ≡ (if definitions.is_left_open writing then Some keys else None) }
{
    if writing.opens || goes_on(writing.tie) {
        Some(keys)
    } else {
        None
    }
}

/// A spine as a bar begins.
fn at_bar(spine: Spine) -> Spine
    ensures { result ≡ definitions.at_bar spine }
{
    Spine {
        place: 0,
        tied: spine.tied,
        graces: 0,
    }
}

/// A spine on a grid that is so many times finer.
fn rescaled(spine: Spine, times: u64) -> Spine
    requires { spine.place * times < 2 ^ 62 }
    ensures { result ≡ definitions.rescaled times spine }
{
    Spine {
        place: spine.place * times,
        tied: spine.tied,
        graces: spine.graces,
    }
}

/// What is known of a spine after one more token, on a grid in which its value counts.
fn spine_after(spine: Spine, token: Token, grid: Grid) -> Spine
    requires well { IsWellToken token }
    requires place { spine.place < 2 ^ 62 }
    requires graces { spine.graces < 2 ^ 62 }
    ensures { result ≡ spine_after grid spine token }
{
    match token {
        Token::Bar(_signature) => at_bar(spine),
        Token::Null => spine,
        Token::Rest(value) => Spine {
            place: width(value, grid) + spine.place,
            tied: None,
            graces: 0,
        },
        Token::Grace(_keys) => Spine {
            place: spine.place,
            tied: spine.tied,
            graces: spine.graces + 1,
        },
        Token::Chord(writing, keys) => Spine {
            place: width(writing.value, grid) + spine.place,
            tied: left_open(writing, keys),
            graces: 0,
        },
    }
}

/// Passes the tokens of a line in all spines, where the grid has become so many times finer.
pub(crate) fn pass(spines: &mut [Spine], tokens: &[Token], times: u64, grid: Grid)
    requires lengths { length tokens.now ≡ length spines.old }
    requires well { All IsWellToken tokens.now }
    requires places { All (λ s. s.place * times < 2 ^ 62) spines.old }
    requires graces { All (λ s. s.graces < 2 ^ 62) spines.old }
    ensures { spines.new ≡ definitions.spines_after grid times tokens.now spines.old }
{
    'spines: for (number, spine) in spines.iter_mut().enumerate() {
        *spine = spine_after(rescaled(*spine, times), tokens[number], grid);
    }
}

/// Begins a bar in all spines.
pub(crate) fn begin_bar(spines: &mut [Spine])
    ensures { spines.new ≡ map definitions.at_bar spines.old }
{
    'spines: for spine in spines.iter_mut() {
        *spine = at_bar(*spine);
    }
}

/// Adds the tokens of a line to the columns.
pub(crate) fn append(columns: &mut [Column], tokens: &[Token]) -> Result<(), AllocError>
    requires { length tokens.now ≡ length columns.old }
    ensures { OnOk result (columns.new ≡ map (λ p. p.1 ++ p.0 ∷ []) (zip tokens.now columns.old)) }
{
    'columns: for (number, column) in columns.iter_mut().enumerate() {
        column.push(tokens[number])?;
    }
    Ok(())
}

/// Adds a barline to the columns.
pub(crate) fn append_bar(columns: &mut [Column], signature: TimeSignature) -> Result<(), AllocError>
    ensures { OnOk result (columns.new ≡ map (λ c. c ++ token.Bar signature ∷ []) columns.old) }
{
    'columns: for column in columns.iter_mut() {
        column.push(Token::Bar(signature))?;
    }
    Ok(())
}

/// So many spines at their beginning.
pub(crate) fn new_spines(alloc: Global, count: usize) -> Result<Vec<Spine>, AllocError>
    ensures { IfOk result (λ v. v.items ≡ replicate count definitions.first_spine) }
{
    let mut spines = Vec::new(alloc);
    'spines: for _number in 0..count {
        spines.push(Spine {
            place: 0,
            tied: None,
            graces: 0,
        })?;
    }
    Ok(spines)
}

/// So many columns without a token.
pub(crate) fn new_columns(alloc: Global, count: usize) -> Result<Vec<Column>, AllocError>
    ensures { IfOk result (λ v. v.items ≡ replicate count []) }
{
    let mut columns = Vec::new(alloc);
    'columns: for _number in 0..count {
        columns.push(Column::new(alloc))?;
    }
    Ok(columns)
}
