ghost use Rattle.derivation.specs.RuleLists.{AreToldSounds, TellDerivation};
ghost use Rattle.derivation.specs.Sounds.{plain_bars};
ghost use Rattle.rhythm_base.specs.Leaves.{soundings};
ghost use Rattle.rhythm_base.specs.Readable.{IsReadable};
ghost use Rattle.rhythm_base.specs.declared.limits.TheConstants.{LATEST_TICK, MOST_BARS};
ghost use Rattle.tree_laws.specs.Voices.{IsVoice};
ghost use Rattle.std.specs.Prelude.{◌≤◌, IfOk, length, map};

use crate::bars::timed_leaves;
use crate::reading::sounds_along;
use crate::voice_sounds::VoiceSounds;
use rhythm_base::{Bar, Chord, Grammar, Sound, Units};
use std::alloc::{AllocError, Global};

/// The sounds of a derivation that fits: one for each leaf of its trees, in order. Each bar's tree is told by its rule list,
/// the numbers of its rules in preorder. The bars are side by side from tick 0 to the last barline, at `last`, and the
/// chords are those of the voice. A leaf with grace chords is a beginning.
pub fn derivation_sounds(
    alloc: Global,
    grammar: &Grammar,
    lists: &[&[u16]],
    bars: &[Bar],
    last: u64,
    chords: &[Chord],
) -> Result<VoiceSounds, AllocError>
    requires grammar { IsReadable grammar.now }
    requires few_bars { length bars.now ≤ MOST_BARS }
    requires last { last ≤ LATEST_TICK }
    requires voice { IsVoice grammar.now (plain_bars grammar.now last bars.now) (soundings chords.now) }
    requires fits { let all = plain_bars grammar.now last bars.now in
        TellDerivation grammar.now all chords.now (map (λ l. l.now) lists.now) }
    ensures sounds { let all = plain_bars grammar.now last bars.now in
        IfOk result (λ v. AreToldSounds grammar.now all chords.now (map (λ l. l.now) lists.now) v) }
{
    let resolution = Units::of(grammar.resolution);
    let leaves = timed_leaves(alloc, grammar, resolution, lists, bars, last)?;
    sounds_along(alloc, leaves.as_slice(), chords)
}

/// The sounds of a derivation that fits, as `derivation_sounds` gives them, side by side.
pub fn sounds_of(
    alloc: Global,
    grammar: &Grammar,
    lists: &[&[u16]],
    bars: &[Bar],
    last: u64,
    chords: &[Chord],
) -> Result<Vec<Sound>, AllocError>
    requires grammar { IsReadable grammar.now }
    requires few_bars { length bars.now ≤ MOST_BARS }
    requires last { last ≤ LATEST_TICK }
    requires voice { IsVoice grammar.now (plain_bars grammar.now last bars.now) (soundings chords.now) }
    requires fits { let all = plain_bars grammar.now last bars.now in
        TellDerivation grammar.now all chords.now (map (λ l. l.now) lists.now) }
    ensures sounds { let all = plain_bars grammar.now last bars.now in
        IfOk result (λ v. AreToldSounds grammar.now all chords.now (map (λ l. l.now) lists.now) v.items) }
{
    derivation_sounds(alloc, grammar, lists, bars, last, chords)?.into_sounds(alloc)
}
