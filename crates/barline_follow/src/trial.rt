ghost use Rattle.barline_follow.specs.Script.{IsOfBars};
ghost use Rattle.barline_follow.specs.Trial.{
  AreAllMade,
  HasReachedInTurn,
  HasReachedSomeInTurn,
  IsBackAgain,
  IsCostAfter,
  IsRoomier,
  IsTriedEdit,
  IsUnmade,
  KeptLeadBack,
};
ghost use Rattle.edit_session.specs.Products.{RisesOnOk};
ghost use Rattle.rhythm_base.specs.EditRanges as edits;
ghost use Rattle.rhythm_base.specs.Performance.{Performance};
ghost use Rattle.std.specs.Prelude.{◌≡◌, ◌≤◌, [], ◌∷◌, IfOk, OnErr, OnOk, false, true};

use carry_matrix::Steps as Products;
use edit_session::{Prepared, Session};
use least_cost::Steps as Builds;
use rhythm_base::{Edit, EditFault, LATEST_TICK, MOST_BARS, Tag};
use rhythm_ports::{Gate, Means};
use std::alloc::AllocError;
use std::thread::Threads;

/// An edit of bars is in range.
fn is_in_range(edit: &Edit) -> bool
    ensures yes { result ≡ true → edits.IsEditInRange edit.now }
    ensures no { result ≡ false → IsOfBars edit.now → edits.IsEditInRange edit.now → ⊥ }
{
    match edit {
        Edit::Barline { bar, tick } => *bar <= MOST_BARS && *tick <= LATEST_TICK,
        Edit::AddBar | Edit::DropBar => true,
        _ => false,
    }
}

/// Makes an edit and says the way back; none where it is refused, and the session stands where it stood.
fn make<R: Threads + Sync, G: Gate + Sync, B: Tag, P: Tag>(
    means: &Means<'_, R, G>,
    session: &mut Session,
    edit: &Edit,
    builds: &mut Builds<B>,
    products: &mut Products<P>,
) -> Result<Option<Prepared>, AllocError>
    ensures kept { IsRoomier session.old session.new }
    ensures tried { IfOk result (IsTriedEdit session.old edit.now session.new) }
    ensures memory { OnErr result (IsUnmade session.old edit.now session.new) }
    ensures reached { OnOk result (HasReachedInTurn session.old (edit.now ∷ []) builds.old builds.new) }
    ensures most { HasReachedSomeInTurn session.old (edit.now ∷ []) builds.old builds.new }
    ensures products { RisesOnOk result products.old products.new }
{
    // What this says of the performance shows that the session can be put back.
    let _before = session.performance();
    if !is_in_range(edit) {
        return Ok(None);
    }
    match session.make_edit(means, edit, builds, products) {
        Ok(made) => Ok(Some(made.back)),
        Err(fault) => match fault {
            EditFault::Memory => Err(AllocError),
            _ => Ok(None),
        },
    }
}

/// Makes the edits in turn up to one that is refused, and says whether all are made. The ways back are kept, the last one last.
fn make_all<R: Threads + Sync, G: Gate + Sync, B: Tag, P: Tag>(
    means: &Means<'_, R, G>,
    session: &mut Session,
    script: &[Edit],
    backs: &mut Vec<Prepared>,
    builds: &mut Builds<B>,
    products: &mut Products<P>,
) -> Result<bool, AllocError>
    requires { backs.old.items ≡ [] }
    ensures kept { IsRoomier session.old session.new }
    ensures back { KeptLeadBack session.new backs.new.items session.old.performance }
    ensures made { IfOk result (AreAllMade session.old script.now session.new) }
    ensures reached { OnOk result (HasReachedInTurn session.old script.now builds.old builds.new) }
    ensures most { HasReachedSomeInTurn session.old script.now builds.old builds.new }
    ensures products { products.old ≤ products.new }
{
    'edits: for edit in script {
        backs.reserve(1)?;
        match make(means, session, edit, builds, products)? {
            None => return Ok(false),
            Some(back) => backs.push(back).unwrap(),
        }
    }
    Ok(true)
}

/// Puts the session back on what it was, over these steps, the last of them first.
fn take_all_back<P: Tag>(
    session: &mut Session,
    mut backs: Vec<Prepared>,
    products: &mut Products<P>,
)
    requires { (start : Performance) × KeptLeadBack session.old backs.items start }
    ensures grammar { session.new.grammar ≡ session.old.grammar }
    ensures room { session.new.room ≡ session.old.room }
    ensures performance { (start : Performance) → KeptLeadBack session.old backs.items start
        → session.new.performance ≡ start }
    ensures products { products.old ≤ products.new }
{
    'backs: while let Some(back) = backs.pop() {
        session.take_back(back, products);
    }
}

/// What the performance costs after these edits, where each is accepted in its turn; else none. Afterwards the session is as before.
pub fn try_edits<R: Threads + Sync, G: Gate + Sync, B: Tag, P: Tag>(
    means: &Means<'_, R, G>,
    session: &mut Session,
    script: &[Edit],
    builds: &mut Builds<B>,
    products: &mut Products<P>,
) -> Result<Option<u64>, AllocError>
    ensures again { IsBackAgain session.old session.new }
    ensures cost { IfOk result (IsCostAfter session.old script.now) }
    ensures reached { OnOk result (HasReachedInTurn session.old script.now builds.old builds.new) }
    ensures most { HasReachedSomeInTurn session.old script.now builds.old builds.new }
    ensures products { products.old ≤ products.new }
{
    let mut backs = Vec::new(means.alloc);
    let made = make_all(means, session, script, &mut backs, builds, products);
    let cost = session.cost();
    take_all_back(session, backs, products);
    Ok(if made? { Some(cost) } else { None })
}
