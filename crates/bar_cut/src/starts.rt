ghost use Rattle.bar_cut.specs.Cuts.{NamesFirstWithoutStart};
ghost use Rattle.bar_cut.specs.declared.fault.CutFault.TheVariants.{Memory};
ghost use Rattle.rhythm_base.specs.declared.limits.TheConstants.{MOST_BARS};
ghost use Rattle.rhythm_base.specs.Voices.{HasStarts};
ghost use Rattle.std.specs.Prelude.{◌≡◌, ◌≢◌, ◌≤◌, Err, IfOk, length};

use crate::fault::CutFault;
use crate::lookup::root_of;
use rhythm_base::{Bar, Grammar};

/// Looks up the root symbol of each bar, up to the first that has none.
pub fn check_starts(grammar: &Grammar, bars: &[Bar]) -> Result<(), CutFault>
    requires { length bars.now ≤ MOST_BARS }
    ensures starts { IfOk result (λ _. HasStarts grammar.now bars.now) }
    ensures no_start { NamesFirstWithoutStart grammar.now bars.now result }
    ensures no_memory { result ≢ Err Memory }
{
    'bars: for number in 0..bars.len() {
        let bar = bars[number];
        if root_of(grammar, bar.num, bar.den).is_none() {
            return Err(CutFault::NoStart {
                bar: number as u32,
                num: bar.num,
                den: bar.den,
            });
        }
    }
    Ok(())
}
