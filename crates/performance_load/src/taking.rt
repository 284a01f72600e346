ghost use Rattle.performance_load.specs.Taking.{AreMarksUpTo, IsTakeFormed, Takes};
ghost use Rattle.rhythm_base.specs.declared.limits.TheConstants.{LATEST_EVENT};
ghost use Rattle.smf_reader.specs.Ranges.{IsPlayedFile};
ghost use Rattle.std.specs.Prelude.{IfOk};

use crate::played::Take;
use note_list::{NoteFault, pair};
use smf_reader::Smf;
use std::alloc::Global;
use tempo_map::changes_of;

/// What the file says, before bars are laid.
pub fn take(alloc: Global, smf: &Smf) -> Result<Take, NoteFault>
    requires { IsPlayedFile smf.now }
    ensures takes { Takes smf.now result }
    ensures formed { IfOk result IsTakeFormed }
    ensures marks { IfOk result (AreMarksUpTo LATEST_EVENT) }
{
    let events = smf.merged(alloc)?;
    let notes = pair(alloc, &events, smf.last())?;
    let changes = changes_of(alloc, &events)?;
    Ok(Take {
        division: smf.division,
        notes,
        tempos: changes.tempos,
        key_marks: changes.key_marks,
        signatures: changes.signatures,
    })
}
