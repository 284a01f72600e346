ghost use Rattle.piece_laws.specs.Laws.{IsLoadingOf};
ghost use Rattle.rhythm_base.specs.declared.limits.TheConstants.{MOST_NOTES};
ghost use Rattle.rhythm_gen.specs.MidiFile.{generated};
ghost use Rattle.smf_reader.specs.Outcomes.{SaysFile};
ghost use Rattle.smf_reader.specs.Ranges.{IsPlayedFile};
ghost use Rattle.std.specs.Prelude.{◌≡◌, ◌≤◌, ◌*◌, ◌∷◌, [], IfOk, Ok, length};

use performance_load::{LoadFault, load};
use rhythm_base::Performance;
use rhythm_gen::{PieceNumber, generate};
use smf_reader::{Smf, SmfFault, read_smf};
use std::alloc::{AllocError, Global};

/// The number of bars of the piece of a drill.
pub const DRILL_BARS: u32 = 500;

/// What the file of the piece of a number says. It has no fault.
fn played_piece(alloc: Global, number: PieceNumber) -> Result<Smf, AllocError>
    ensures says { IfOk result (SaysFile (generated number DRILL_BARS)) }
    ensures range { IfOk result IsPlayedFile }
{
    let bytes = generate(alloc, number.number(), DRILL_BARS)?;
    match read_smf(alloc, bytes.as_slice()) {
        Ok(played) => Ok(played),
        Err(fault) => match fault {
            SmfFault::Memory => Err(AllocError),
            _ => unreachable!(),
        },
    }
}

/// The performance of the piece of a number, as its file is read and loaded. It has no fault.
pub fn made_performance(alloc: Global, number: PieceNumber) -> Result<Performance, AllocError>
    ensures loading { IfOk result (λ p. IsLoadingOf number DRILL_BARS (Ok p)) }
    ensures bars { IfOk result (λ p. length p.bars ≡ DRILL_BARS) }
    ensures last { IfOk result (λ p. p.last ≡ 1920 * DRILL_BARS) }
    ensures channels { IfOk result (λ p. p.channels ≡ 0 ∷ 1 ∷ []) }
    ensures notes { IfOk result (λ p. 2 * DRILL_BARS ≤ length p.notes) }
    ensures few_notes { IfOk result (λ p. length p.notes ≤ MOST_NOTES) }
{
    let played = played_piece(alloc, number)?;
    match load(alloc, &played) {
        Ok(performance) => Ok(performance),
        Err(fault) => match fault {
            LoadFault::Memory => Err(AllocError),
            _ => unreachable!(),
        },
    }
}
