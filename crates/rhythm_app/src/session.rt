ghost use Rattle.edit_session.specs.Opening.{CanOpen, cells_of};
ghost use Rattle.rhythm_app.specs.Builds.{HasBuiltFor};
ghost use Rattle.rhythm_app.specs.Outcome.{IsUnopened};
ghost use Rattle.rhythm_app.specs.Stages.{CountsUp, IsOfContent};
ghost use Rattle.rhythm_app.specs.declared.stop.Stop.TheVariants as stop;
ghost use Rattle.rhythm_base.specs.Counter.{risen};
ghost use Rattle.rhythm_base.specs.Readable.{IsReadable};
ghost use Rattle.rhythm_base.specs.declared.limits.TheConstants.{MOST_NOTES};
ghost use Rattle.std.specs.Prelude.{◌≡◌, ◌≤◌, ◌⊎◌, IfErr, IfOk, OnOk, length};

use crate::lent::{Lent, World};
use crate::stop::Stop;
use edit_session::{OpenFault, Session};
use rhythm_base::{Grammar, Performance, Workers};
use rhythm_ports::Means;

/// A fault of opening a session as a stop.
impl From<OpenFault> for Stop {
    ghost use Rattle.rhythm_app.specs.Outcome.{open_stop};

    ghost from_gives = { λ fault stop. stop ≡ open_stop fault };

    fn from(fault: OpenFault) -> Stop {
        match fault {
            OpenFault::Cells { count } => Stop::TooManyCells { count },
            OpenFault::NoStart { bar, num, den } => Stop::NoStart { bar, num, den },
            OpenFault::NoDerivation { channel, bar } => Stop::NoDerivation { channel, bar },
            OpenFault::Memory => Stop::Memory,
        }
    }
}

/// A session on a performance. Each of its cells is built once, by one of the workers.
pub fn open_session<W: World>(
    lent: &mut Lent<W>,
    workers: Workers,
    grammar: Grammar,
    performance: Performance,
) -> Result<Session, Stop>
    requires readable { IsReadable grammar }
    requires few_notes { length performance.notes ≤ MOST_NOTES }
    ensures grammar { IfOk result (λ s. s.grammar ≡ grammar) }
    ensures performance { IfOk result (λ s. s.performance ≡ performance) }
    ensures opened { OnOk result (CanOpen grammar performance) }
    ensures unopened { IfErr result (λ s. IsUnopened grammar performance s ⊎ (s ≡ stop.Memory)) }
    ensures content { IfErr result IsOfContent }
    ensures all { OnOk result (lent.new.built ≡ risen lent.old.built (cells_of performance)) }
    ensures built { IfErr result (HasBuiltFor performance lent.old.built lent.new.built) }
    ensures counts { CountsUp lent.old lent.new }
{
    let means = Means {
        rt: &lent.rt,
        alloc: lent.alloc,
        gate: &lent.gate,
    };
    let session = Session::open(
        &means,
        performance,
        grammar,
        workers.count(),
        &mut lent.builds,
        &mut lent.products,
    )?;
    Ok(session)
}
