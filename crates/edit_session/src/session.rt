ghost use Rattle.bar_pool.specs.Pool.{AreTablesOf, RisesWithin};
ghost use Rattle.rhythm_base.specs.declared.limits.TheConstants.{MOST_WORKERS};
ghost use Rattle.chain_bars.specs.Products.{RisesTwice};
ghost use Rattle.edit_session.specs.Asking.{CanBePinned, IsAskFault};
ghost use Rattle.edit_session.specs.ChangedVoices.{LeavesOthers, changed_channel};
ghost use Rattle.edit_session.specs.Effects.{
  AllLive,
  HasBuiltInVain,
  HasMultiplied,
  HasMultipliedFor,
  IsApplied,
  IsCommitted,
  IsGivenUp,
  IsRejected,
  IsUnprepared,
  IsWayBack,
  IsWithinReached,
};
ghost use Rattle.edit_session.specs.Opening.{CanOpen, IsBuilt, IsOpenFault, cells_of};
ghost use Rattle.edit_session.specs.declared.open_fault.OpenFault.TheVariants.{Cells, Memory, NoDerivation, NoStart};
ghost use Rattle.derivation.specs.PerformanceScore.{IsScoreOf, score_bar};
ghost use Rattle.derivation.specs.Score.{IsScore};
ghost use Rattle.rhythm_base.specs.Counter.{risen};
ghost use Rattle.rhythm_base.specs.Performance.{IsWellFormed};
ghost use Rattle.rhythm_base.specs.Readable.{IsReadable};
ghost use Rattle.tree_laws.specs.Alternatives.{AreBestOfBar};
ghost use Rattle.rhythm_base.specs.Voices.{HasDerivation, HasStarts, IsCostOf};
ghost use Rattle.rhythm_base.specs.declared.limits.TheConstants.{MOST_BARS, MOST_CELLS, MOST_NOTES};
ghost use Rattle.edit_session.specs.Prepared.{RisesBy, Suits, bar_table_of, cell_of};
ghost use Rattle.edit_session.specs.Products.{changes_made};
ghost use Rattle.edit_session.specs.ReachedCells.{place_pair};
ghost use Rattle.edit_session.specs.RuleLists.{AreLeastListsOf};
ghost use Rattle.edit_laws.specs.Edits as edits;
ghost use Rattle.rhythm_base.specs.EditRanges.{IsEditInRange};
ghost use Rattle.edit_laws.specs.Reached.{AreReached};
ghost use Rattle.std.specs.Prelude.{◌≡◌, ◌≤◌, ◌<◌, ℕ, All, Err, IfErr, IfOk, List, None, Ok, OnErr, OnOk, length, map, max};

use crate::ask_fault::AskFault;
use crate::asking::{alternatives_of, place_of};
use crate::committed::{Applied, Committed, Dead};
use crate::exchange::{Exchanged, exchange};
use crate::inputs::tempo_map_of;
use crate::kept_voices::{first_dead_voice, reserve_all, total_of, voices_of};
use crate::least_trees::least_lists;
use crate::open_fault::OpenFault;
use crate::opening::{PlannedTables, cell_tables};
use crate::prepared::{CellTable, Prepared, placed_tables};
use crate::preparing::place_for;
use crate::reached::{ReachedCells, reached_cells};
use crate::score::{score_bars, whole_score};
use crate::standing::{Standing, taken_over};
use crate::voice_tables::VoiceTables;
use bar_alternatives::Alternative;
use bar_pool::{Order, Rooms, build_cells};
use carry_matrix::Steps as Products;
use derivation::{Score, ScoreBar};
use grammar_plan::Plan;
use least_cost::Steps as Builds;
use performance_edit::edited;
use rhythm_base::{Edit, EditFault, Grammar, Performance, Tag};
use rhythm_ports::{Gate, Means};
use std::alloc::{AllocError, Global};
use std::marker::Model;
use std::mem;
use std::thread::Threads;

/// A performance and a grammar, with the plan of the grammar, the table of each cell and the chain of each voice.
#[derive(Drop)]
pub struct Session {
    grammar: Grammar,
    plan: Plan,
    performance: Performance,
    workers: u32,
    voices: Vec<VoiceTables>,
    standing: Standing,
    room: u32,
}

impl Model for Session {
    ghost use Rattle.std.specs.Coded.{codes};
    ghost use Rattle.edit_session.specs.Session.{Session};
    ghost use Rattle.rhythm_base.specs.PerformanceCode.{performance_code};

    ghost Value = { Session };

    ghost coded = { Prim.hlevel (codes, performance_code) };

    ghost use Rattle.edit_session.specs.Kept.{IsSession};

    ghost view = { λ s. record { grammar = s.grammar; performance = s.performance; workers = s.workers; room = s.room } };

    ghost invariant = { λ s. IsSession s.grammar s.plan s.performance s.workers s.voices.items s.room };
}

impl Session {
    /// Opens a session on a performance: each cell is built once, by up to so many workers, 1 to 16.
    pub fn open<R: Threads + Sync, G: Gate + Sync, B: Tag, P: Tag>(
        means: &Means<'_, R, G>,
        performance: Performance,
        grammar: Grammar,
        workers: u32,
        builds: &mut Builds<B>,
        products: &mut Products<P>,
    ) -> Result<Session, OpenFault>
        requires some_worker { 1 ≤ workers }
        requires few_workers { workers ≤ MOST_WORKERS }
        requires readable { IsReadable grammar }
        requires few_notes { length performance.notes ≤ MOST_NOTES }
        ensures grammar { IfOk result (λ s. s.grammar ≡ grammar) }
        ensures performance { IfOk result (λ s. s.performance ≡ performance) }
        ensures workers { IfOk result (λ s. s.workers ≡ workers) }
        ensures opened { OnOk result (CanOpen grammar performance) }
        ensures fault { IfErr result (IsOpenFault grammar performance) }
        ensures builds { OnOk result (builds.new ≡ risen builds.old (cells_of performance)) }
        ensures built { IfErr result (IsBuilt builds.old builds.new (cells_of performance)) }
        ensures products { products.old ≤ products.new }
    {
        let opening = cell_tables(means, &grammar, &performance, workers, builds)?;
        let PlannedTables { plan, tables } = opening;
        let bars = performance.bars().len();
        let count = performance.channels().len();
        let voices = voices_of(means.alloc, tables, count, bars, products)?;
        if let Some(dead) = first_dead_voice(voices.as_slice()) {
            return Err(OpenFault::NoDerivation {
                channel: performance.channels()[dead.voice],
                bar: dead.bar,
            });
        }
        let standing = Standing::new(means.alloc, count * bars)?;
        Ok(Session {
            grammar,
            plan,
            performance,
            workers,
            voices,
            standing,
            room: bars as u32,
        })
    }

    /// What the least derivations of all voices cost together.
    pub fn cost(&self) -> u64
        ensures { IsCostOf self.now.grammar self.now.performance result }
    {
        total_of(self.voices.as_slice())
    }

    /// The score: the sounds of the least derivation of each voice, with the signatures, tempos and keys of the bars. It is what
    /// the writers of other forms take.
    pub fn whole_score(&self, alloc: Global) -> Result<Score, AllocError>
        ensures score { IfOk result (λ score. IsScoreOf self.now.grammar self.now.performance score) }
        ensures writable { IfOk result IsScore }
        ensures few_bars { IfOk result (λ score. length score.bars ≤ MOST_BARS) }
    {
        let voices = self.voices.as_slice();
        whole_score(alloc, &self.grammar, &self.performance, voices)
    }

    /// The rule lists of the least derivation of a voice, bar after bar: the numbers of the rules of each tree in preorder. The voices
    /// are numbered from 0, by rising channel.
    pub fn rule_lists(&self, alloc: Global, voice: usize) -> Result<Vec<&[u16]>, AllocError>
        requires { voice < length self.now.performance.channels }
        ensures { IfOk result (λ v. AreLeastListsOf self.now voice (map (λ l. l.now) v.items)) }
    {
        let voices = self.voices.as_slice();
        least_lists(alloc, &voices[voice])
    }

    /// The first `count` alternatives of a bar of a voice: the best trees of the bar, its pin lifted, each with the least cost of a
    /// derivation of the voice that has it there. The bar can be pinned to each of them. At most `2 * d` products, where there are at
    /// most `2 ^ d` bars.
    pub fn alternatives<P: Tag>(
        &self,
        alloc: Global,
        channel: u8,
        bar: u32,
        count: u32,
        products: &mut Products<P>,
    ) -> Result<Vec<Alternative>, AskFault>
        ensures there { OnOk result (edits.first_refusal (edits.cell_tests self.now.performance channel bar) ≡ None) }
        ensures best { IfOk result (λ list. AreBestOfBar self.now.grammar self.now.performance channel bar count list.items) }
        ensures shapes { IfOk result (λ list. All CanBePinned list.items) }
        ensures fault { IfErr result (IsAskFault self.now.performance channel bar) }
        ensures products { RisesTwice (length self.now.performance.bars) products.old products.new }
    {
        let Some(place) = place_of(self.performance.channels(), channel) else {
            return Err(AskFault::NoVoice(channel));
        };
        let number = bar as usize;
        if number >= self.performance.bars().len() {
            return Err(AskFault::NoBar(bar));
        }
        let voices = self.voices.as_slice();
        let grammar = &self.grammar;
        let list = alternatives_of(alloc, grammar, &voices[place], number, count, products)?;
        Ok(list)
    }

    /// The performance as edited so far. Each of its voices has a derivation.
    pub fn performance(&self) -> &Performance
        ensures value { result.now ≡ self.now.performance }
        ensures formed { IsWellFormed self.now.performance }
        ensures derivations { All (HasDerivation self.now.grammar self.now.performance) self.now.performance.channels }
        ensures starts { HasStarts self.now.grammar self.now.performance.bars }
        ensures few_notes { length self.now.performance.notes ≤ MOST_NOTES }
        ensures few_cells { cells_of self.now.performance ≤ MOST_CELLS }
        ensures room { length self.now.performance.bars ≤ self.now.room }
    {
        &self.performance
    }

    /// The grammar that the session was opened with.
    pub fn grammar(&self) -> &Grammar
        ensures value { result.now ≡ self.now.grammar }
        ensures readable { IsReadable self.now.grammar }
    {
        &self.grammar
    }

    /// By up to how many workers its cells are built, 1 to 16.
    pub fn workers(&self) -> u32
        ensures value { result ≡ self.now.workers }
        ensures some_worker { 1 ≤ result }
        ensures few_workers { result ≤ MOST_WORKERS }
    {
        self.workers
    }

    /// The bars as they are written, with the tempo and the key in force at the start of each.
    pub fn score_bars(&self, alloc: Global) -> Result<Vec<ScoreBar>, AllocError>
        ensures { IfOk result (λ v. v.items ≡ map (score_bar self.now.performance) self.now.performance.bars) }
    {
        let tempo_map = tempo_map_of(alloc, &self.performance)?;
        score_bars(alloc, &self.performance, &tempo_map)
    }

    /// Takes memory, so that the session grows up to so many bars without taking more.
    pub fn reserve(&mut self, bars: u32) -> Result<(), AllocError>
        requires { bars ≤ MOST_BARS }
        ensures grammar { self.new.grammar ≡ self.old.grammar }
        ensures workers { self.new.workers ≡ self.old.workers }
        ensures performance { self.new.performance ≡ self.old.performance }
        ensures ok { OnOk result (self.new.room ≡ max self.old.room bars) }
        ensures err { OnErr result (self.new.room ≡ self.old.room) }
    {
        reserve_all(self.voices.as_mut_slice(), bars)?;
        self.room = self.room.max(bars);
        Ok(())
    }

    /// The table of each of these cells: each is built once, or taken over where for each of them one of an equal input stands.
    fn reached_tables<R: Threads + Sync, G: Gate + Sync, B: Tag>(
        &self,
        means: &Means<'_, R, G>,
        reached: &ReachedCells,
        builds: &mut Builds<B>,
    ) -> Result<Vec<CellTable>, AllocError>
        requires units { All (λ k. k.resolution ≡ self.now.grammar.resolution) reached.now.inputs.items }
        requires inputs { length reached.now.inputs.items ≡ length reached.now.cells.items }
        ensures cells { IfOk result (λ v. map cell_of v.items ≡ map place_pair reached.now.cells.items) }
        ensures tables { IfOk result (λ v. AreTablesOf self.now.grammar reached.now.inputs.items (map bar_table_of v.items)) }
        ensures builds { OnOk result (builds.new ≡ risen builds.old (length reached.now.cells.items)) }
        ensures most { RisesWithin builds.old builds.new (length reached.now.cells.items) }
    {
        let inputs = reached.inputs.as_slice();
        let channels = self.performance.channels();
        let voices = self.voices.as_slice();
        if let Some(found) = self.standing.tables(means.alloc, channels, voices, inputs)? {
            let tables = taken_over(means, found.as_slice(), builds)?;
            return placed_tables(means.alloc, reached.cells.as_slice(), tables);
        }
        let order = Order {
            grammar: &self.grammar,
            plan: &self.plan,
            inputs,
        };
        let mut rooms = Rooms::new(means.alloc);
        let tables = build_cells(means, &order, self.workers, &mut rooms, builds)?;
        placed_tables(means.alloc, reached.cells.as_slice(), tables)
    }

    /// The tables of the cells that an edit reaches, and memory for those that they replace.
    fn prepare_next<R: Threads + Sync, G: Gate + Sync, B: Tag>(
        &self,
        means: &Means<'_, R, G>,
        next: Performance,
        edit: &Edit,
        builds: &mut Builds<B>,
    ) -> Result<Prepared, AllocError>
        requires formed { IsWellFormed next }
        requires channels { next.channels ≡ self.now.performance.channels }
        requires tempos { next.tempos ≡ self.now.performance.tempos }
        requires division { next.division ≡ self.now.performance.division }
        requires range { IsEditInRange edit.now }
        requires after { next ≡ edits.performance_after self.now.performance edit.now }
        requires others { LeavesOthers (changed_channel edit.now) self.now.performance next }
        requires starts { HasStarts self.now.grammar next.bars }
        requires few_cells { cells_of next ≤ MOST_CELLS }
        requires few_notes { length next.notes ≤ MOST_NOTES }
        ensures next { IfOk result (λ x. x.next ≡ next) }
        ensures suits { IfOk result (λ x. Suits self.now.grammar self.now.performance x) }
        ensures builds { IfOk result (λ x. builds.new ≡ risen builds.old (length x.tables)) }
        ensures most { RisesBy builds.old builds.new (IsWithinReached self.now next) }
    {
        let voices = self.voices.as_slice();
        let grammar = &self.grammar;
        let before = &self.performance;
        let reached = reached_cells(means.alloc, grammar, before, &next, edit, voices)?;
        let tables = self.reached_tables(means, &reached, builds)?;
        let bars = self.performance.bars().len();
        let lost = bars.saturating_sub(next.bars().len());
        let place = place_for(means.alloc, tables.len(), voices.len(), lost)?;
        Ok(Prepared::of(next, tables, place))
    }

    /// Makes an edit ready: the performance after it, with the table of each cell that it reaches, each built once. Whether
    /// each voice has a derivation is asked afterwards.
    pub fn prepare<R: Threads + Sync, G: Gate + Sync, B: Tag>(
        &self,
        means: &Means<'_, R, G>,
        edit: &Edit,
        builds: &mut Builds<B>,
    ) -> Result<Prepared, EditFault>
        requires { IsEditInRange edit.now }
        ensures next { IfOk result (λ x. edits.edited self.now.performance edit.now ≡ Ok x.next) }
        ensures suits { IfOk result (λ x. Suits self.now.grammar self.now.performance x) }
        ensures builds { IfOk result (λ x. builds.new ≡ risen builds.old (length x.tables)) }
        ensures refused { IfErr result (IsUnprepared self.now.performance edit.now) }
        ensures built { IfErr result (HasBuiltInVain self.now edit.now builds.old builds.new) }
    {
        match edited(means.alloc, &self.performance, edit) {
            Err(fault) => Err(fault),
            Ok(next) => match self.prepare_next(means, next, edit, builds) {
                Ok(prepared) => Ok(prepared),
                Err(_error) => Err(EditFault::Memory),
            },
        }
    }

    /// Puts the session on what is prepared, and takes no memory for it. Where some voice of it has no derivation, the session
    /// stays as it was, and what was prepared is given up. A change makes at most `d` products for each cell that it reaches,
    /// and in each voice for each bar that it loses, where there are at most `2 ^ d` bars before and afterwards; twice as many
    /// where the session then goes back.
    pub fn commit<P: Tag>(
        &mut self,
        prepared: Prepared,
        products: &mut Products<P>,
    ) -> Result<Committed, Dead>
        requires suits { Suits self.old.grammar self.old.performance prepared }
        requires room { length prepared.next.bars ≤ self.old.room }
        ensures made { IfOk result (IsCommitted self.old prepared self.new) }
        ensures given_up { IfErr result (IsGivenUp self.old prepared) }
        ensures unchanged { OnErr result (self.new ≡ self.old) }
        ensures products { HasMultiplied (changes_made result) self.old prepared.next products.old products.new }
    {
        let built = prepared.tables();
        let (next, tables, place) = prepared.parts();
        let bars = next.bars().len();
        let voices = self.voices.as_mut_slice();
        let exchanged = exchange(voices, next.channels(), bars, tables, place, products);
        if let Some(dead) = first_dead_voice(self.voices.as_slice()) {
            let Exchanged { tables, place } = exchanged;
            let bars = self.performance.bars().len();
            let voices = self.voices.as_mut_slice();
            let _back = exchange(voices, next.channels(), bars, tables, place, products);
            return Err(Dead {
                channel: next.channels()[dead.voice],
                bar: dead.bar,
            });
        }
        let before = mem::replace(&mut self.performance, next);
        let cost = total_of(self.voices.as_slice());
        let back = Prepared::of(before, exchanged.tables, exchanged.place);
        let applied = Applied { built, cost };
        Ok(Committed { applied, back })
    }

    /// Puts the session back on what it was taken off: as `commit`, but each voice of what comes back is known to have a derivation.
    pub fn take_back<P: Tag>(&mut self, back: Prepared, products: &mut Products<P>) -> Committed
        requires suits { Suits self.old.grammar self.old.performance back }
        requires formed { IsWellFormed back.next }
        requires derivations { AllLive self.old.grammar back.next }
        requires room { length back.next.bars ≤ self.old.room }
        ensures made { IsCommitted self.old back self.new result }
        ensures products { HasMultiplied 1 self.old back.next products.old products.new }
    {
        match self.commit(back, products) {
            Ok(committed) => committed,
            Err(_dead) => unreachable!(),
        }
    }

    /// Keeps the places where the tables of an edit are to stand, and before the first edit those of all tables.
    fn keep_places(&mut self, prepared: &Prepared)
        ensures { self.new ≡ self.old }
    {
        if !self.standing.is_filled {
            let channels = self.performance.channels();
            self.standing.fill(channels, self.voices.as_slice());
        }
        self.standing.keep_all(prepared.cells());
    }

    /// Makes an edit, and gives the way back; or says why it is refused: `prepare`, `reserve` and `commit`. All memory is taken before
    /// the session changes, and after each refusal it stands where it stood. The products are those of `commit`, and none where the
    /// edit is refused for anything but a voice that would have no derivation.
    pub fn make_edit<R: Threads + Sync, G: Gate + Sync, B: Tag, P: Tag>(
        &mut self,
        means: &Means<'_, R, G>,
        edit: &Edit,
        builds: &mut Builds<B>,
        products: &mut Products<P>,
    ) -> Result<Committed, EditFault>
        requires { IsEditInRange edit.now }
        ensures made { IfOk result (λ c. IsApplied self.old edit.now self.new c.applied) }
        ensures way_back { IfOk result (λ c. IsWayBack self.old self.new c.back) }
        ensures rejected { IfErr result (IsRejected self.old edit.now self.new) }
        ensures builds { IfOk result (λ c. builds.new ≡ risen builds.old c.applied.built) }
        ensures built { IfErr result (HasBuiltInVain self.old edit.now builds.old builds.new) }
        ensures products { HasMultipliedFor self.old edit.now result products.old products.new }
    {
        let prepared = self.prepare(means, edit, builds)?;
        self.keep_places(&prepared);
        let bars = prepared.next().bars().len() as u32;
        if let Err(_error) = self.reserve(bars) {
            return Err(EditFault::Memory);
        }
        match self.commit(prepared, products) {
            Ok(committed) => Ok(committed),
            Err(dead) => Err(EditFault::NoDerivation {
                channel: dead.channel,
                bar: dead.bar,
            }),
        }
    }

    /// Makes an edit, or says why it is refused, as `make_edit` does.
    pub fn apply<R: Threads + Sync, G: Gate + Sync, B: Tag, P: Tag>(
        &mut self,
        means: &Means<'_, R, G>,
        edit: &Edit,
        builds: &mut Builds<B>,
        products: &mut Products<P>,
    ) -> Result<Applied, EditFault>
        requires { IsEditInRange edit.now }
        ensures made { IfOk result (IsApplied self.old edit.now self.new) }
        ensures rejected { IfErr result (IsRejected self.old edit.now self.new) }
        ensures builds { IfOk result (λ a. builds.new ≡ risen builds.old a.built) }
        ensures built { IfErr result (HasBuiltInVain self.old edit.now builds.old builds.new) }
        ensures products { HasMultipliedFor self.old edit.now result products.old products.new }
    {
        match self.make_edit(means, edit, builds, products) {
            Ok(made) => Ok(made.applied),
            Err(fault) => Err(fault),
        }
    }
}
