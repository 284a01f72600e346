ghost use Rattle.rhythm_base.specs.Counter.{risen};
ghost use Rattle.rhythm_ports.specs.Causes.{Rose};
ghost use Rattle.script_run.specs.Hearing.{Hears, HearsAll, HearsUpTo, QuitsThere, StopsThere, Took};
ghost use Rattle.script_run.specs.declared.script_stop.ScriptStop.TheVariants as stop;
ghost use Rattle.std.specs.Prelude.{◌≡◌, ◌≤◌, ℕ, List, Err, IfErr, Ok, false, true};

use crate::listener::Listener;
use crate::script_stop::ScriptStop;
use carry_matrix::Steps as Products;
use least_cost::Steps as Builds;
use rhythm_base::{LONGEST_SCRIPT, LONGEST_SCRIPT_LINE, Tag};
use rhythm_ports::{Failed, Gate, Means, Sink};
use std::thread::Threads;

/// Hears a byte of the script. Says whether the script ends there, by a line that says so.
fn hear<R: Threads + Sync, O: Sink, G: Gate + Sync, B: Tag, P: Tag>(
    means: &Means<'_, R, G>,
    listener: &mut Listener,
    byte: u8,
    out: &mut O,
    builds: &mut Builds<B>,
    products: &mut Products<P>,
) -> Result<bool, ScriptStop>
    ensures on { result ≡ Ok false → (reply : List ℕ) × (n : ℕ) × Hears listener.old byte reply n listener.new
        × Took (O.taken out.old) (O.taken out.new) builds.old builds.new reply n }
    ensures end { result ≡ Ok true → (reply : List ℕ) × (n : ℕ) × QuitsThere listener.new.desk listener.old byte reply n
        × Took (O.taken out.old) (O.taken out.new) builds.old builds.new reply n }
    ensures stop { IfErr result (λ end. (after : List ℕ) × (n : ℕ) × StopsThere end listener.new.desk listener.old byte after n
        × Took (O.taken out.old) (O.taken out.new) builds.old builds.new after n) }
    ensures cause { result ≡ Err stop.Write → Rose (O.faults out.old) (O.faults out.new) }
    ensures later { O.faults out.old ≤ O.faults out.new }
    ensures products { products.old ≤ products.new }
{
    if listener.is_full() {
        return Err(ScriptStop::TooLong {
            read: LONGEST_SCRIPT + 1,
        });
    }
    if byte == b'\n' {
        return match listener.answer(means, out, builds, products) {
            Ok(ends) => {
                listener.pass_newline();
                Ok(ends)
            }
            Err(Failed) => Err(ScriptStop::Write),
        };
    }
    if listener.has_long_line() {
        return Err(ScriptStop::LineTooLong {
            read: LONGEST_SCRIPT_LINE + 1,
        });
    }
    listener.join(byte);
    Ok(false)
}

/// Hears bytes of the script, one after another. Says whether the script ends among them, by a line that says so.
pub fn hear_all<R: Threads + Sync, O: Sink, G: Gate + Sync, B: Tag, P: Tag>(
    means: &Means<'_, R, G>,
    listener: &mut Listener,
    piece: &[u8],
    out: &mut O,
    builds: &mut Builds<B>,
    products: &mut Products<P>,
) -> Result<bool, ScriptStop>
    ensures on { result ≡ Ok false → (replies : List ℕ) × (n : ℕ) × HearsAll listener.old piece.now replies n listener.new
        × Took (O.taken out.old) (O.taken out.new) builds.old builds.new replies n }
    ensures end { result ≡ Ok true → (n : ℕ) × HearsUpTo listener.old piece.now (O.taken out.old) (O.taken out.new) n (QuitsThere listener.new.desk)
        × (builds.new ≡ risen builds.old n) }
    ensures stop { IfErr result (λ end. (n : ℕ) × HearsUpTo listener.old piece.now (O.taken out.old) (O.taken out.new) n (StopsThere end listener.new.desk)
        × (builds.new ≡ risen builds.old n)) }
    ensures cause { result ≡ Err stop.Write → Rose (O.faults out.old) (O.faults out.new) }
    ensures later { O.faults out.old ≤ O.faults out.new }
    ensures products { products.old ≤ products.new }
{
    'bytes: for byte in piece {
        match hear(means, listener, *byte, out, builds, products) {
            Ok(false) => {}
            Ok(true) => return Ok(true),
            Err(stop) => return Err(stop),
        }
    }
    Ok(false)
}
