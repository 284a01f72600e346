ghost use Rattle.derivation.specs.Score.{IsScoreBar};
ghost use Rattle.derivation.specs.WellSounded.{AreWellSounded};
ghost use Rattle.notation.specs.Bars.{AreVoiceGroups};
ghost use Rattle.std.specs.Prelude.{All, IfOk, length};

use crate::bar::bar_groups;
use crate::note::BarGroups;
use crate::place::odd_part;
use derivation::{ScoreBar, own_count};
use rhythm_base::{Sound, Units};
use std::alloc::{AllocError, Global};
use voice_values::begins_with_tie;

/// The groups of each bar of a voice.
pub fn voice_groups<'a>(
    alloc: Global,
    resolution: Units,
    bars: &[ScoreBar],
    sounds: &'a [Sound],
) -> Result<Vec<BarGroups<'a>>, AllocError>
    requires bars { All IsScoreBar bars.now }
    requires sounds { AreWellSounded resolution (length bars.now) sounds.now }
    ensures { IfOk result (λ v. AreVoiceGroups resolution 0 bars.now sounds.entry.now v.items) }
{
    let odd = odd_part(resolution);
    let mut all = Vec::with_capacity(alloc, bars.len())?;
    let mut later = sounds;
    'bars: for (number, bar) in bars.iter().enumerate() {
        let (own, rest) = later.split_at(own_count(later, number));
        let goes_on = begins_with_tie(rest);
        all.push(bar_groups(alloc, resolution, odd, bar, goes_on, own)?)?;
        later = rest;
    }
    Ok(all)
}
