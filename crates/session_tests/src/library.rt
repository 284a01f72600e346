ghost use Rattle.rhythm_base.specs.EditRanges.{IsEditInRange};
ghost use Rattle.rhythm_base.specs.declared.limits.TheConstants.{LONGEST_GRAMMAR};
ghost use Rattle.session_tests.specs.EditedScore.{IsEditedScore};
ghost use Rattle.std.specs.Prelude.{◌≤◌, IfOk, length};

use carry_matrix::Steps as Products;
use edit_session::{OpenFault, Session};
use grammar_file::{GrammarFault, read_grammar};
use least_cost::Steps as Builds;
use performance_load::{LoadFault, load};
use rhythm_base::{Edit, EditFault, Tag};
use rhythm_ports::{Means, OpenGate};
use session_text::{KernText, ScoreFault};
use smf_reader::{SmfFault, read_smf};
use std::alloc::Global;
use std::thread::Threads;
use thiserror::Error;

/// Why there is no score: the fault of the call that has one.
#[derive(Debug, Drop, Error)]
pub enum NoScore {
    #[error("the MIDI file is not read")]
    Midi(#[from] SmfFault),
    #[error("the MIDI file has no performance")]
    Load(#[from] LoadFault),
    #[error("the grammar file is not read")]
    Grammar(#[from] GrammarFault),
    #[error("no session is opened")]
    Open(#[from] OpenFault),
    #[error("the edit is refused")]
    Edit(#[from] EditFault),
    #[error("the score is not written")]
    Score(#[from] ScoreFault),
}

/// What the counters of built tables and of their products count for.
#[derive(Clone, Copy)]
pub struct OneEdit;

impl Tag for OneEdit {}

/// The **kern text of the score of a MIDI file by a grammar file, after an edit.
pub fn edited_score<R: Threads + Sync>(
    rt: &R,
    alloc: Global,
    midi: &[u8],
    grammar: &[u8],
    edit: &Edit,
) -> Result<Vec<u8>, NoScore>
    requires short { length grammar.now ≤ LONGEST_GRAMMAR }
    requires range { IsEditInRange edit.now }
    ensures { IfOk result (λ text. IsEditedScore midi.now grammar.now edit.now text.items) }
{
    let played = read_smf(alloc, midi)?;
    let performance = load(alloc, &played)?;
    let rules = read_grammar(alloc, grammar)?;
    let mut builds = Builds::<OneEdit>::zero();
    let mut products = Products::<OneEdit>::zero();
    let means = Means {
        rt,
        alloc,
        gate: &OpenGate,
    };
    let mut session = Session::open(&means, performance, rules, 2, &mut builds, &mut products)?;
    let _applied = session.apply(&means, edit, &mut builds, &mut products)?;
    let text = session.score(alloc)?;
    Ok(text)
}
