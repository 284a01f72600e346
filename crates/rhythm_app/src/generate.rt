ghost use Rattle.rhythm_app.specs.Asked.{generate};
ghost use Rattle.rhythm_app.specs.Stages.{HasText};
ghost use Rattle.std.specs.Prelude.{Some};

use crate::lent::{Lent, World};
use crate::stop::Stop;
use rhythm_gen::{PieceBars, PieceNumber, generate};

/// The MIDI file of the piece of a number.
pub fn piece_bytes<W: World>(
    lent: &mut Lent<W>,
    number: PieceNumber,
    bars: PieceBars,
) -> Result<Vec<u8>, Stop>
    ensures { HasText (Some (generate number bars)) lent.old lent.new result }
{
    match generate(lent.alloc, number.number(), bars.count()) {
        Ok(bytes) => Ok(bytes),
        Err(_error) => Err(Stop::Memory),
    }
}
