ghost use Rattle.performance_prepare.specs.Ranges.{AreInRange};
ghost use Rattle.rhythm_app.specs.Asked.{notes};
ghost use Rattle.rhythm_app.specs.Outcome.{AreInTurn, IsNoting, IsPlaying};
ghost use Rattle.rhythm_app.specs.Stages.{Follows, HasText, IsOfContent, said_of};
ghost use Rattle.smf_reader.specs.Ranges.{IsPlayedFile};
ghost use Rattle.std.specs.Prelude.{IfErr, Some};

use crate::files::midi_of;
use crate::lent::{Lent, World};
use crate::performance::played_by;
use crate::stop::Stop;
use notes_writer::write_notes;
use performance_prepare::Options;
use smf_reader::Smf;
use std::alloc::Global;

/// The text of the bars, tempos, keys and notes that the file says, prepared by the options.
fn noted(alloc: Global, options: &Options, played: &Smf) -> Result<Vec<u8>, Stop>
    requires played { IsPlayedFile played.now }
    requires range { AreInRange options.now }
    ensures tests { Follows (AreInTurn (IsPlaying options.now played.now) IsNoting) (said_of result) }
    ensures content { IfErr result IsOfContent }
{
    match played_by(alloc, options, played) {
        Ok(performance) => match write_notes(alloc, &performance) {
            Ok(text) => Ok(text),
            Err(_error) => Err(Stop::Memory),
        },
        Err(stop) => Err(stop),
    }
}

/// The text of `notes`: a line for each bar, tempo, key and note of a MIDI file.
pub fn notes_text_of<W: World>(
    lent: &mut Lent<W>,
    midi: &str,
    options: Options,
) -> Result<Vec<u8>, Stop>
    requires { AreInRange options }
    ensures { HasText (Some (notes midi.now options)) lent.old lent.new result }
{
    let played = midi_of(lent.alloc, &mut lent.shelf, midi)?;
    noted(lent.alloc, &options, &played)
}
