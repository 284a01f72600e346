ghost use Rattle.rhythm_base.specs.EditRanges.{IsEditInRange};
ghost use Rattle.rhythm_gen.specs.DrillEdit.{HasDrillEdit, drill_edit};
ghost use Rattle.std.specs.Prelude.{◌≡◌, Some};

use crate::draws::Draws;
use crate::piece_number::PieceNumber;
use rhythm_base::{Edit, Performance};

/// The last barline of a performance that is drilled, at the latest: 1,000 ticks before the latest tick.
pub const LATEST_DRILLED: u64 = 1_999_999_000;

/// The edit of this index, 0 to 39, of the drill of a number. It may be refused.
pub fn drill_edit(number: u32, index: u32, performance: &Performance) -> Edit
    requires { HasDrillEdit number index performance.now }
    ensures value { Some result ≡ drill_edit number index performance.now }
    ensures range { IsEditInRange result }
{
    let draw = Draws::of_drill(PieceNumber::of(number)).draw(index + 1);
    let bars = performance.bars();
    let notes = performance.notes();
    let bar = draw as usize % bars.len();
    let Some(note) = notes.get(draw as usize % notes.len()) else {
        unreachable!()
    };
    match index % 4 {
        0 => Edit::Add {
            channel: (index % 2) as u8,
            key: 72 + (draw % 12) as u8,
            onset: bars[bar].start + 120,
            end: bars[bar].start + 240,
        },
        1 => Edit::Drop {
            channel: note.channel,
            key: note.key,
            onset: note.onset,
        },
        2 => Edit::Move {
            channel: note.channel,
            key: note.key,
            onset: note.onset,
            to: note.onset + 30,
        },
        _ => {
            let bar = bar.max(1);
            Edit::Barline {
                bar: bar as u32,
                tick: bars[bar].start + 10,
            }
        }
    }
}
