ghost use Rattle.barline_follow.specs.Answer.{IsAnswer};
ghost use Rattle.barline_follow.specs.Trial.{HasBuiltSomeToFollow, HasBuiltToFollow, IsBackAgain};
ghost use Rattle.std.specs.Prelude.{◌≡◌, ◌+◌, ◌*◌, ◌≤◌, IfOk, OnOk, nat_le};

use crate::script::follow_script;
use crate::search::best_barlines;
use crate::trial::try_edits;
use carry_matrix::Steps as Products;
use edit_session::Session;
use least_cost::Steps as Builds;
use rhythm_base::{Edit, Tag};
use rhythm_ports::{Gate, Means};
use std::alloc::AllocError;
use std::thread::Threads;

/// A cost and the prices are at most seven tenths of the cost before.
fn gains(cost: u64, prices: u64, before: u64) -> bool
    ensures { result ≡ nat_le (10 * (cost + prices)) (7 * before) }
{
    10 * (u128::from(cost) + u128::from(prices)) <= 7 * u128::from(before)
}

/// The edit script that moves the barlines of a session to where the player's are, tried on the session, which is as before
/// afterwards. It is empty where nothing better is found, where too little is gained, and where one of its lines is refused.
pub fn follow<R: Threads + Sync, G: Gate + Sync, B: Tag, P: Tag>(
    means: &Means<'_, R, G>,
    session: &mut Session,
    builds: &mut Builds<B>,
    products: &mut Products<P>,
) -> Result<Vec<Edit>, AllocError>
    ensures again { IsBackAgain session.old session.new }
    ensures answer { IfOk result (λ v. IsAnswer session.old.grammar session.old.performance v.items) }
    ensures builds { OnOk result (HasBuiltToFollow session.old builds.old builds.new) }
    ensures most { HasBuiltSomeToFollow session.old builds.old builds.new }
    ensures products { products.old ≤ products.new }
{
    let grammar = session.grammar();
    let performance = session.performance();
    let workers = session.workers();
    let before = session.cost();
    let best = best_barlines(means, grammar, performance, workers, builds)?;
    let Some(best) = best else {
        return Ok(Vec::new(means.alloc));
    };
    if !gains(best.cost(), best.prices(), before) {
        return Ok(Vec::new(means.alloc));
    }
    let script = follow_script(means.alloc, session.performance(), best.ticks())?;
    let lines = script.as_slice();
    let tried = try_edits(means, session, lines, builds, products)?;
    if tried.is_none() {
        return Ok(Vec::new(means.alloc));
    }
    Ok(script)
}
