ghost use Rattle.rhythm_base.specs.Counter.{risen};
ghost use Rattle.rhythm_ports.specs.Causes.{Rose};
ghost use Rattle.script_run.specs.Desk.{shown};
ghost use Rattle.script_run.specs.Editing.{Editing};
ghost use Rattle.script_run.specs.Ends.{IsDone, IsScriptStopped};
ghost use Rattle.script_run.specs.Hearing.{Closes, Replies, Took};
ghost use Rattle.script_run.specs.declared.script_stop.ScriptStop.TheVariants as stop;
ghost use Rattle.std.specs.Prelude.{◌≡◌, ◌≢◌, ◌<◌, ◌≤◌, ℕ, List, [], Err, IfErr, OnOk, length, take};

use crate::desk::Desk;
use crate::hearing::hear_all;
use crate::listener::Listener;
use crate::script_stop::ScriptStop;
use carry_matrix::Steps as Products;
use least_cost::Steps as Builds;
use rhythm_base::Tag;
use rhythm_ports::{Failed, Gate, Means, Sink, Source};
use std::thread::Threads;

/// The most bytes that one read of a script asks for.
pub const ONE_READ: usize = 4_096;

/// Answers a line that was begun, at the end of the script.
fn close<R: Threads + Sync, O: Sink, G: Gate + Sync, B: Tag, P: Tag>(
    means: &Means<'_, R, G>,
    listener: &mut Listener,
    out: &mut O,
    builds: &mut Builds<B>,
    products: &mut Products<P>,
) -> Result<(), ScriptStop>
    ensures ok { OnOk result ((reply : List ℕ) × (n : ℕ) × Closes listener.old reply n listener.new.desk
        × Took (O.taken out.old) (O.taken out.new) builds.old builds.new reply n) }
    ensures cut { IfErr result (λ end. (end ≡ stop.Write) × Rose (O.faults out.old) (O.faults out.new)
        × ((reply : List ℕ) × (n sent : ℕ) × (listener.old.begun ≢ []) × Replies listener.old reply n listener.new.desk
        × (sent < length reply) × Took (O.taken out.old) (O.taken out.new) builds.old builds.new (take sent reply) n)) }
    ensures products { products.old ≤ products.new }
{
    if listener.has_no_line() {
        return Ok(());
    }
    match listener.answer(means, out, builds, products) {
        Ok(_ends) => Ok(()),
        Err(Failed) => Err(ScriptStop::Write),
    }
}

/// Runs an edit script over a desk: answers each of its lines when the newline after it, or the end of the script, is read,
/// and before the next line is. One read asks for at most 4,096 bytes, and comes only when all whole lines are answered. The
/// memory for a line is taken before the first read.
pub fn run_script<R: Threads + Sync, S: Source, O: Sink, G: Gate + Sync, B: Tag, P: Tag>(
    means: &Means<'_, R, G>,
    desk: Desk,
    script: &mut S,
    out: &mut O,
    builds: &mut Builds<B>,
    products: &mut Products<P>,
) -> Result<(), ScriptStop>
    ensures done { OnOk result ((last : Editing)
        × IsDone (shown desk) (S.rest script.old) (S.rest script.new) (O.taken out.old) (O.taken out.new) last
        × (builds.new ≡ risen builds.old last.built)) }
    ensures stopped { IfErr result (λ end. (last : Editing)
        × IsScriptStopped end (shown desk) (S.rest script.old) (S.rest script.new) (O.taken out.old) (O.taken out.new) last
        × (builds.new ≡ risen builds.old last.built)) }
    ensures read { result ≡ Err stop.Read → Rose (S.faults script.old) (S.faults script.new) }
    ensures write { result ≡ Err stop.Write → Rose (O.faults out.old) (O.faults out.new) }
    ensures memory { result ≡ Err stop.Memory → (script.new ≡ script.old) × (out.new ≡ out.old) }
    ensures products { products.old ≤ products.new }
{
    let Ok(mut listener) = Listener::new(means.alloc, desk) else {
        return Err(ScriptStop::Memory);
    };
    let mut piece = [0u8; ONE_READ];
    'pieces: loop {
        match script.read(&mut piece) {
            Ok(0) => return close(means, &mut listener, out, builds, products),
            Ok(count) => {
                match hear_all(means, &mut listener, &piece[..count], out, builds, products) {
                    Ok(false) => {}
                    Ok(true) => return Ok(()),
                    Err(stop) => return Err(stop),
                }
            }
            Err(Failed) => return Err(ScriptStop::Read),
        }
    }
}
