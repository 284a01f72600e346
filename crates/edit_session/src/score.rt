ghost use Rattle.edit_session.specs.Kept.{AreTablesOfVoice, AreTablesOfVoices};
ghost use Rattle.edit_session.specs.BarsInForce.{bar_in_force};
ghost use Rattle.edit_session.specs.VoiceTables.{HasPath};
ghost use Rattle.derivation.specs.PerformanceScore as performed;
ghost use Rattle.derivation.specs.PerformanceScore.{AreLeastSounds, IsScoreOf};
ghost use Rattle.rhythm_base.specs.Lists.{Each};
ghost use Rattle.rhythm_base.specs.Performance.{IsWellFormed};
ghost use Rattle.rhythm_base.specs.Readable.{IsReadable};
ghost use Rattle.rhythm_base.specs.Voices.{HasStarts};
ghost use Rattle.rhythm_base.specs.declared.limits.TheConstants.{LATEST_TICK};
ghost use Rattle.std.specs.Prelude.{◌≡◌, ◌≤◌, All, IfOk, map};

use crate::inputs::{tempo_map_of, voice_chords};
use crate::least_trees::least_lists;
use crate::voice_tables::VoiceTables;
use derivation::{Score, ScoreBar, VoiceSounds, derivation_sounds};
use rhythm_base::{Bar, Grammar, Performance};
use std::alloc::{AllocError, Global};
use tempo_map::TempoMap;

/// A bar with the tempo and the key in force at its start.
fn score_bar(bar: Bar, tempo_map: &TempoMap) -> ScoreBar
    requires { bar.start ≤ LATEST_TICK }
    ensures { result ≡ bar_in_force tempo_map.now.tempos tempo_map.now.key_marks bar }
{
    ScoreBar {
        num: bar.num,
        den: bar.den,
        tempo: tempo_map.tempo_at(bar.start),
        sf: tempo_map.key_at(bar.start),
    }
}

/// The bars as they are written.
pub fn score_bars(
    alloc: Global,
    performance: &Performance,
    tempo_map: &TempoMap,
) -> Result<Vec<ScoreBar>, AllocError>
    requires formed { IsWellFormed performance.now }
    requires tempo_map { tempo_map.now ≡ record { tempos = performance.now.tempos; key_marks = performance.now.key_marks } }
    ensures { IfOk result (λ v. v.items ≡ map (performed.score_bar performance.now) performance.now.bars) }
{
    let mut bars = Vec::with_capacity(alloc, performance.bars().len())?;
    'bars: for bar in performance.bars() {
        bars.push(score_bar(*bar, tempo_map))?;
    }
    Ok(bars)
}

/// The sounds of the least derivation of the voice of a channel.
fn least_sounds(
    alloc: Global,
    grammar: &Grammar,
    performance: &Performance,
    tempo_map: &TempoMap,
    channel: u8,
    voice: &VoiceTables,
) -> Result<VoiceSounds, AllocError>
    requires readable { IsReadable grammar.now }
    requires tempos { tempo_map.now.tempos ≡ performance.now.tempos }
    requires starts { HasStarts grammar.now performance.now.bars }
    requires tables { AreTablesOfVoice grammar.now performance.now channel voice.now.tables }
    requires path { HasPath voice.now }
    ensures { IfOk result (λ v. AreLeastSounds grammar.now performance.now channel v) }
{
    let chords = voice_chords(alloc, grammar, performance, tempo_map, channel)?;
    let lists = least_lists(alloc, voice)?;
    derivation_sounds(
        alloc,
        grammar,
        lists.as_slice(),
        performance.bars(),
        performance.last(),
        chords.as_slice(),
    )
}

/// The sounds of the least derivation of each voice.
pub fn all_sounds(
    alloc: Global,
    grammar: &Grammar,
    performance: &Performance,
    tempo_map: &TempoMap,
    voices: &[VoiceTables],
) -> Result<Vec<VoiceSounds>, AllocError>
    requires readable { IsReadable grammar.now }
    requires tempos { tempo_map.now.tempos ≡ performance.now.tempos }
    requires starts { HasStarts grammar.now performance.now.bars }
    requires tables { AreTablesOfVoices grammar.now performance.now voices.now }
    requires paths { All HasPath voices.now }
    ensures { IfOk result (λ v. Each (AreLeastSounds grammar.now performance.now) performance.now.channels v.items) }
{
    let channels = performance.channels();
    let mut sounds = Vec::with_capacity(alloc, channels.len())?;
    'voices: for (number, voice) in voices.iter().enumerate() {
        let channel = channels[number];
        sounds.push(least_sounds(alloc, grammar, performance, tempo_map, channel, voice)?)?;
    }
    Ok(sounds)
}

/// The score: the sounds of the least derivation of each voice, with the signatures, tempos and keys of the bars.
pub fn whole_score(
    alloc: Global,
    grammar: &Grammar,
    performance: &Performance,
    voices: &[VoiceTables],
) -> Result<Score, AllocError>
    requires readable { IsReadable grammar.now }
    requires formed { IsWellFormed performance.now }
    requires starts { HasStarts grammar.now performance.now.bars }
    requires tables { AreTablesOfVoices grammar.now performance.now voices.now }
    requires paths { All HasPath voices.now }
    ensures { IfOk result (λ score. IsScoreOf grammar.now performance.now score) }
{
    let tempo_map = tempo_map_of(alloc, performance)?;
    let bars = score_bars(alloc, performance, &tempo_map)?;
    let sounds = all_sounds(alloc, grammar, performance, &tempo_map, voices)?;
    Ok(Score {
        resolution: grammar.resolution,
        bars,
        voices: sounds,
    })
}
