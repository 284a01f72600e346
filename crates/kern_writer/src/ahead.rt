ghost use Rattle.kern_writer.specs.Ahead.{AreTokensRead, IsFilled, bar_read, laters};
ghost use Rattle.derivation.specs.Score.{IsScoreBar};
ghost use Rattle.rhythm_base.specs.Lists.{Each};
ghost use Rattle.std.specs.Prelude.{◌≡◌, [], All, IfOk, OnOk, map};
ghost use Rattle.voice_values.specs.Ahead as definitions;

use crate::column::Column;
use derivation::{LentSounds, ScoreBar, SoundsAhead, VoiceSounds};
use rhythm_base::{SoundKind, Units};
use std::alloc::{AllocError, Global};
use std::marker::Model;

/// A voice as it is read bar by bar: the sounds of the bar that was read last, and those after it.
#[derive(Drop)]
pub(crate) struct VoiceAhead<'a> {
    own: LentSounds<'a>,
    later: SoundsAhead<'a>,
}

impl<'a> Model for VoiceAhead<'a> {
    ghost use Rattle.kern_writer.specs.Ahead.{VoiceAhead};

    ghost Value = { VoiceAhead };

    ghost view = { λ a. record { own = a.own; later = a.later } };
}

/// Whether the first of the sounds is a tie.
fn begins_with_tie(sounds: &SoundsAhead) -> bool
    ensures { result ≡ definitions.begins_with_tie sounds.now }
{
    match sounds.next_kind() {
        None => false,
        Some(kind) => kind == SoundKind::Tie,
    }
}

impl<'a> VoiceAhead<'a> {
    /// A voice of which no bar is read.
    pub(crate) fn of(alloc: Global, sounds: &'a VoiceSounds) -> VoiceAhead<'a>
        ensures { result ≡ record { own = []; later = sounds.entry.now } }
    {
        VoiceAhead {
            own: LentSounds::of(alloc, &[]),
            later: sounds.ahead(),
        }
    }

    /// Reads the bar of this number, whose sounds are the next.
    fn read_bar(&mut self, alloc: Global, number: usize) -> Result<(), AllocError>
        ensures { OnOk result (self.new ≡ bar_read number self.old) }
    {
        self.own = self.later.next_bar(alloc, number)?;
        Ok(())
    }

    /// The column of the bar that was read last.
    fn column<'c>(
        &'c self,
        alloc: Global,
        resolution: Units,
        bar: &ScoreBar,
    ) -> Result<Column<'c>, AllocError>
        requires bar { IsScoreBar bar.now }
        requires full { IsFilled resolution self.now }
        ensures { IfOk result (λ c. AreTokensRead resolution bar.now self.entry.now c) }
    {
        let goes_on = begins_with_tie(&self.later);
        Column::of(alloc, resolution, bar, self.own.as_slice(), goes_on)
    }
}

/// Reads the bar of this number of each voice.
pub(crate) fn read_bars(
    alloc: Global,
    number: usize,
    ahead: &mut [VoiceAhead],
) -> Result<(), AllocError>
    ensures { OnOk result (ahead.new ≡ map (bar_read number) ahead.old) }
{
    'voices: for voice in ahead.iter_mut() {
        voice.read_bar(alloc, number)?;
    }
    Ok(())
}

/// The column of each voice in the bar that was read last.
pub(crate) fn columns_of<'c>(
    alloc: Global,
    resolution: Units,
    bar: &ScoreBar,
    ahead: &'c [VoiceAhead],
) -> Result<Vec<Column<'c>>, AllocError>
    requires bar { IsScoreBar bar.now }
    requires full { All (IsFilled resolution) ahead.now }
    ensures { IfOk result (λ v. Each (AreTokensRead resolution bar.now) ahead.entry.now v.items) }
{
    let mut columns = Vec::with_capacity(alloc, ahead.len())?;
    'voices: for voice in ahead {
        columns.push(voice.column(alloc, resolution, bar)?)?;
    }
    Ok(columns)
}

/// The voices, of which no bar is read.
pub(crate) fn voices_ahead<'a>(
    alloc: Global,
    voices: &'a [VoiceSounds],
) -> Result<Vec<VoiceAhead<'a>>, AllocError>
    ensures { IfOk result (λ v. laters v.items ≡ voices.entry.now) }
{
    let mut ahead = Vec::with_capacity(alloc, voices.len())?;
    'voices: for voice in voices {
        ahead.push(VoiceAhead::of(alloc, voice))?;
    }
    Ok(ahead)
}
