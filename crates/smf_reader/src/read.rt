ghost use Rattle.smf_reader.specs.Outcome.{GivesFile};
ghost use Rattle.smf_reader.specs.Ranges.{IsPlayedFile};
ghost use Rattle.smf_reader.specs.SmfFile.{smf};
ghost use Rattle.std.specs.Prelude.{IfOk};

use crate::chunk::read_tracks;
use crate::fault::SmfFault;
use crate::header::read_header;
use crate::smf::Smf;
use std::alloc::Global;

/// What a Standard MIDI File says, or the first fault in it. The bytes are read once, and memory is taken for events alone:
/// of a track for as many as its bytes can say, a third of their number.
#[tactic(auto, unfolding(crate::specs::SmfFile::smf))]
pub fn read_smf(alloc: Global, bytes: &[u8]) -> Result<Smf, SmfFault>
    // The file's one reading, or the one fault that stands in it.
    ensures value { GivesFile result (smf bytes.now) }

    // What `value` implies of every such file.
    ensures played { IfOk result IsPlayedFile }
{
    let header = read_header(bytes)?;
    let tracks = read_tracks(alloc, header.tracks, bytes, header.end)?;
    Ok(Smf {
        division: header.division,
        tracks,
    })
}
