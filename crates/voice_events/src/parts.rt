ghost use Rattle.derivation.specs.Score.{IsScoreBar};
ghost use Rattle.rhythm_base.specs.declared.limits.TheConstants.{MOST_UNITS};
ghost use Rattle.std.specs.Prelude.{◌≡◌, ◌*◌, ◌^◌, ◌<◌, ◌≤◌, All, length};
ghost use Rattle.voice_events.specs.Parts as definitions;
ghost use Rattle.voice_events.specs.Parts.{IsWhole};

use derivation::ScoreBar;
use rhythm_base::Frac;

/// How many parts of 1/`whole` a number of whole notes is.
pub fn frac_parts(number: Frac, whole: u64) -> u64
    requires whole { IsWhole whole number }
    requires small { definitions.frac_parts whole number < 2 ^ 60 }
    ensures { result ≡ definitions.frac_parts whole number }
{
    number.num * (whole / number.den)
}

/// How long a bar is, in 64 parts of a whole note for each unit.
pub fn score_bar_parts(bar: &ScoreBar, resolution: u16) -> u64
    requires bar { IsScoreBar bar.now }
    requires units { resolution ≤ MOST_UNITS }
    ensures parts { result ≡ definitions.score_bar_parts resolution bar.now }
    ensures few { result ≤ 64 * (64 * resolution) }
{
    u64::from(resolution) * (u64::from(bar.num) * (64 / u64::from(bar.den)))
}

/// Where the last barline is, in these parts.
pub fn score_parts(bars: &[ScoreBar], resolution: u16) -> u64
    requires bars { All IsScoreBar bars.now }
    requires units { resolution ≤ MOST_UNITS }
    requires few { length bars.now ≤ 2 ^ 32 }
    ensures { result ≡ definitions.score_parts resolution bars.now }
{
    bars.iter()
        .map(|bar| score_bar_parts(bar, resolution))
        .sum()
}
