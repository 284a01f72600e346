ghost use Rattle.kern_reader.specs.Columns.{IsGridWith, line_values, stage_after};
ghost use Rattle.kern_reader.specs.Lines.{IsWellLine, line_of, takes_memory};
ghost use Rattle.std.specs.Prelude.{◌≡◌, ◌<◌, ◌^◌, ◌/◌, [], ◌≢◌, All, IfErr, IfOk, OnErr, OnOk, length, true};

use crate::checks::{has_wrong_grace, has_wrong_tie, is_misplaced, is_wrong_bar};
use crate::fault::KernWhat;
use crate::faults::{is_unread, text_fault};
use crate::grid::grid_with_tokens;
use crate::line::{KernLine, Stage};
use crate::line_reading::line;
use crate::spine::{Column, Spine, append, append_bar, begin_bar, new_columns, new_spines, pass};
use crate::token::Token;
use durations::Grid;
use std::alloc::{AllocError, Global};
use text_words::TimeSignature;

/// What is known after some lines of a text.
#[derive(Drop)]
pub(crate) struct Reading {
    pub(crate) spines: Vec<Spine>,
    pub(crate) columns: Vec<Column>,
    /// In so many parts of a whole note all values count.
    pub(crate) grid: Grid,
    /// The signature for the next bar.
    pub(crate) announced: Option<TimeSignature>,
    /// The signature of the bar that has begun.
    pub(crate) bar: Option<TimeSignature>,
    pub(crate) stage: Stage,
}

/// How far a text has come with a line.
fn stage_after(line: &KernLine) -> Stage
    ensures { result ≡ stage_after line.now }
{
    match line {
        KernLine::LastBarline => Stage::Last,
        KernLine::Ending => Stage::Over,
        _ => Stage::Body,
    }
}

/// The grid with the values of a line, where it is not too fine.
fn grid_with_line(grid: Grid, line: &KernLine) -> Option<Grid>
    requires { IsWellLine line.now }
    ensures { IsGridWith grid (line_values line.now) result }
{
    match line {
        KernLine::Data(tokens) => grid_with_tokens(grid, tokens.as_slice()),
        _ => Some(grid),
    }
}

impl Reading {
    ghost use Rattle.kern_reader.specs.Reading.{Adds, HasWidth, IsCountable, IsFaultAfter, IsReading, IsUnderWay, ReadsLine, said_fault};
    ghost use Rattle.kern_reader.specs.Tokens.{IsWellToken};
    ghost use Rattle.kern_reader.specs.declared.fault.KernWhat.TheVariants.{Memory};
    ghost use Rattle.kern_reader.specs.declared.line.KernLine.TheVariants.{Heading, Barline, Data};

    /// No line yet.
    pub(crate) fn new(alloc: Global) -> Reading
        ensures { IsReading 1 [] result }
    {
        Reading {
            spines: Vec::new(alloc),
            columns: Vec::new(alloc),
            grid: Grid::of(1),
            announced: None,
            bar: None,
            stage: Stage::Head,
        }
    }

    /// Reads one more line.
    pub(crate) fn read(&mut self, alloc: Global, text: &[u8]) -> Result<(), KernWhat>
        requires { IsUnderWay self.old }
        ensures read { OnOk result (ReadsLine text.now self.old self.new) }
        ensures fault { IfErr result (λ what. what ≢ Memory → IsFaultAfter self.old text.now what) }
        ensures memory { IfErr result (λ what. what ≡ Memory → takes_memory (line_of text.now) ≡ true) }
    {
        match text_fault(self.stage, self.spines.len(), text) {
            Some(what) => return Err(what),
            None => {}
        }
        let line = line(alloc, text)?;
        let grid = match self.said_fault(&line) {
            Ok(grid) => grid,
            Err(what) => return Err(what),
        };
        self.add(alloc, &line, grid)?;
        Ok(())
    }

    #[tactic(auto, unfolding(crate::specs::Faults::has_no_grid))]
    /// The fault of a line by what it says, or the grid with its values.
    pub(crate) fn said_fault(&self, line: &KernLine) -> Result<Grid, KernWhat>
        requires well { IsWellLine line.now }
        requires places { All (λ s. s.place < 2 ^ 56) self.now.spines.items }
        ensures none { OnOk result (said_fault self.now line.now ≡ None) }
        ensures grid { IfOk result (λ g. IsGridWith self.now.grid (line_values line.now) (Some g)) }
        ensures fault { IfErr result (λ what. said_fault self.now line.now ≡ Some what) }
        ensures no_memory { IfErr result (λ what. what ≢ Memory) }
    {
        if is_unread(self.stage, line) {
            return Err(KernWhat::Token);
        }
        let Some(grid) = grid_with_line(self.grid, line) else {
            return Err(KernWhat::Grid);
        };
        if is_misplaced(self.bar, &self.spines, line) {
            return Err(KernWhat::Place);
        }
        if has_wrong_grace(&self.spines, line) {
            return Err(KernWhat::Grace);
        }
        if is_wrong_bar(self.grid, self.bar, self.announced, &self.spines, line) {
            return Err(KernWhat::Bar);
        }
        if has_wrong_tie(&self.spines, line) {
            return Err(KernWhat::Tie);
        }
        Ok(grid)
    }

    /// Adds a line, on the grid with its values.
    pub(crate) fn add(
        &mut self,
        alloc: Global,
        line: &KernLine,
        grid: Grid,
    ) -> Result<(), AllocError>
        requires well { IsWellLine line.now }
        requires spines { HasWidth line.now (length self.old.spines.items) }
        requires columns { HasWidth line.now (length self.old.columns.items) }
        requires places { All (IsCountable (grid / self.old.grid)) self.old.spines.items }
        ensures adds { OnOk result (Adds line.now grid self.old self.new) }
        ensures memory { OnErr result (takes_memory line.now ≡ true) }
    {
        match line {
            KernLine::Heading(count) => self.add_heading(alloc, *count, grid),
            KernLine::Signature(signature) => {
                self.announced = Some(*signature);
                self.grid = grid;
                self.stage = Stage::Body;
                Ok(())
            }
            KernLine::Barline => self.add_barline(grid),
            KernLine::Data(tokens) => self.add_tokens(tokens.as_slice(), grid),
            _ => {
                self.grid = grid;
                self.stage = stage_after(line);
                Ok(())
            }
        }
    }

    /// Adds the heads of so many spines.
    fn add_heading(&mut self, alloc: Global, count: usize, grid: Grid) -> Result<(), AllocError>
        ensures { OnOk result (Adds (Heading count) grid self.old self.new) }
    {
        let spines = new_spines(alloc, count)?;
        let columns = new_columns(alloc, count)?;
        self.spines = spines;
        self.columns = columns;
        self.grid = grid;
        self.stage = Stage::Body;
        Ok(())
    }

    /// Adds a barline.
    fn add_barline(&mut self, grid: Grid) -> Result<(), AllocError>
        ensures { OnOk result (Adds Barline grid self.old self.new) }
    {
        self.bar = self.announced;
        self.grid = grid;
        self.stage = Stage::Body;
        match self.announced {
            None => Ok(()),
            Some(signature) => {
                begin_bar(&mut self.spines);
                append_bar(&mut self.columns, signature)
            }
        }
    }

    /// Adds the tokens of a data line.
    fn add_tokens(&mut self, tokens: &[Token], grid: Grid) -> Result<(), AllocError>
        requires well { All IsWellToken tokens.now }
        requires spines { length tokens.now ≡ length self.old.spines.items }
        requires columns { length tokens.now ≡ length self.old.columns.items }
        requires places { All (IsCountable (grid / self.old.grid)) self.old.spines.items }
        ensures { OnOk result (Adds (Data tokens.now) grid self.old self.new) }
    {
        let times = grid.count() / self.grid.count();
        pass(&mut self.spines, tokens, times, grid);
        self.grid = grid;
        self.stage = Stage::Body;
        append(&mut self.columns, tokens)
    }
}
