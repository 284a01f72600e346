ghost use Rattle.derivation.specs.Score.{IsScoreBar};
ghost use Rattle.score_words.specs.Changes as definitions;
ghost use Rattle.std.specs.Prelude.{◌≡◌, IfSome};

use derivation::ScoreBar;

/// Whether black keys are flats in a bar: its key signature has flats.
pub fn has_flats(bar: &ScoreBar) -> bool
    ensures { result ≡ definitions.has_flats bar.now.sf }
{
    bar.sf.is_some_and(|sf| sf < 0)
}

/// The key signature before a bar, where there was one.
pub fn key_before(before: Option<ScoreBar>) -> Option<i8>
    ensures { result ≡ definitions.key_before before }
{
    match before {
        None => None,
        Some(other) => other.sf,
    }
}

/// Whether a key signature is the one before.
pub fn is_same_key(before: Option<i8>, sf: i8) -> bool
    ensures { result ≡ definitions.same_key before sf }
{
    match before {
        None => false,
        Some(other) => other == sf,
    }
}

/// Whether the time signature of a bar is the one before.
pub fn is_same_signature(before: Option<ScoreBar>, bar: &ScoreBar) -> bool
    ensures { result ≡ definitions.same_signature before bar.now }
{
    match before {
        None => false,
        Some(other) => other.num == bar.num && other.den == bar.den,
    }
}

/// The quarter notes of a minute at the tempo of a bar, rounded, halves up.
pub fn quarters_of_minute(bar: &ScoreBar) -> u64
    requires { IsScoreBar bar.now }
    ensures { result ≡ definitions.quarters_of_minute bar.now.tempo }
{
    let tempo = u64::from(bar.tempo);
    (120_000_000 + tempo) / (2 * tempo)
}

/// Whether the tempo of a bar is rounded to the same number as the one before.
pub fn is_same_tempo(before: Option<ScoreBar>, bar: &ScoreBar) -> bool
    requires before { IfSome before IsScoreBar }
    requires bar { IsScoreBar bar.now }
    ensures { result ≡ definitions.same_tempo before bar.now }
{
    match before {
        None => false,
        Some(other) => quarters_of_minute(&other) == quarters_of_minute(bar),
    }
}
