ghost use Rattle.kern_writer.specs.Changes.{changes, key_change, signature_change, tempo_change};
ghost use Rattle.derivation.specs.Score.{IsScoreBar};
ghost use Rattle.kern_writer.specs.Writing.{IsBounded, WritesShared};
ghost use Rattle.std.specs.Prelude.{IfSome};

use crate::fault::ScoreFault;
use crate::kern_text::KernText;
use crate::shared::{SharedToken, write_shared};
use derivation::ScoreBar;
use score_words::{is_same_key, is_same_signature, is_same_tempo, key_before, quarters_of_minute};

/// Writes the key of a bar, where it has one and it is not the one before.
fn write_key(
    text: &mut KernText,
    voices: usize,
    before: Option<i8>,
    key: Option<i8>,
) -> Result<(), ScoreFault>
    requires { IsBounded text.old }
    ensures { WritesShared voices (key_change before key) text.old result text.new }
{
    match key {
        Some(sf) if !is_same_key(before, sf) => write_shared(text, voices, SharedToken::Key(sf)),
        _ => Ok(()),
    }
}

/// Writes the signature of a bar, where it is not the one before.
fn write_signature(
    text: &mut KernText,
    voices: usize,
    before: Option<ScoreBar>,
    bar: &ScoreBar,
) -> Result<(), ScoreFault>
    requires { IsBounded text.old }
    ensures { WritesShared voices (signature_change before bar.now) text.old result text.new }
{
    if is_same_signature(before, bar) {
        return Ok(());
    }
    let ScoreBar { num, den, .. } = *bar;
    write_shared(text, voices, SharedToken::Signature { num, den })
}

/// Writes the tempo of a bar, where it is not the one before.
fn write_tempo(
    text: &mut KernText,
    voices: usize,
    before: Option<ScoreBar>,
    bar: &ScoreBar,
) -> Result<(), ScoreFault>
    requires text { IsBounded text.old }
    requires before { IfSome before IsScoreBar }
    requires bar { IsScoreBar bar.now }
    ensures { WritesShared voices (tempo_change before bar.now) text.old result text.new }
{
    if is_same_tempo(before, bar) {
        return Ok(());
    }
    write_shared(text, voices, SharedToken::Tempo(quarters_of_minute(bar)))
}

/// Writes the changes before a bar.
pub(crate) fn write_changes(
    text: &mut KernText,
    voices: usize,
    before: Option<ScoreBar>,
    bar: &ScoreBar,
) -> Result<(), ScoreFault>
    requires text { IsBounded text.old }
    requires before { IfSome before IsScoreBar }
    requires bar { IsScoreBar bar.now }
    ensures { WritesShared voices (changes before bar.now) text.old result text.new }
{
    write_key(text, voices, key_before(before), bar.sf)?;
    write_signature(text, voices, before, bar)?;
    write_tempo(text, voices, before, bar)
}
