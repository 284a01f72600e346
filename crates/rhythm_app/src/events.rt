ghost use Rattle.rhythm_app.specs.Asked.{events};
ghost use Rattle.rhythm_app.specs.Outcome.{IsListing, say};
ghost use Rattle.rhythm_app.specs.Stages.{HasText};
ghost use Rattle.rhythm_app.specs.declared.stop.Stop.TheVariants as stop;
ghost use Rattle.std.specs.Prelude.{◌≡◌, IfErr, IfOk, Ok, Some};

use crate::files::kern_of;
use crate::lent::{Lent, World};
use crate::stop::Stop;
use kern_reader::KernScore;
use std::alloc::Global;

/// The text of the events of a score.
fn listing(alloc: Global, score: &KernScore) -> Result<Vec<u8>, Stop>
    ensures text { IfOk result (λ text. IsListing score.now (Ok (say text.items))) }
    ensures memory { IfErr result (λ end. end ≡ stop.Memory) }
{
    match score.write_events(alloc) {
        Ok(text) => Ok(text),
        Err(_error) => Err(Stop::Memory),
    }
}

/// The text of `events`: a line for each event of a **kern file.
pub fn events_text<W: World>(lent: &mut Lent<W>, kern: &str) -> Result<Vec<u8>, Stop>
    ensures { HasText (Some (events kern.now)) lent.old lent.new result }
{
    let score = kern_of(lent.alloc, &mut lent.shelf, kern)?;
    listing(lent.alloc, &score)
}
