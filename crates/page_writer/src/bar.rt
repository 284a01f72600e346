ghost use Rattle.derivation.specs.Score.{IsScoreBar};
ghost use Rattle.page_writer.specs.Bars as definitions;
ghost use Rattle.page_writer.specs.Bars.{bar_line, bar_words, rest_word, sounding_words};
ghost use Rattle.page_writer.specs.Words.{words_text};
ghost use Rattle.score_words.specs.Writing.{Writes, WritesLines};
ghost use Rattle.std.specs.Prelude.{◌≡◌, ◌∷◌, []};

use crate::group::push_groups;
use crate::note::push_graces;
use derivation::ScoreBar;
use notation::Group;
use rhythm_base::Keys;
use score_words::push_number;
use std::alloc::AllocError;

/// Appends a rest over a whole bar, and a space.
fn push_rest(text: &mut Vec<u8>, bar: &ScoreBar) -> Result<(), AllocError>
    ensures { Writes (words_text (rest_word bar.now ∷ [])) text.old result text.new }
{
    text.extend_from_slice(b"R1*")?;
    push_number(text, u64::from(bar.num))?;
    text.push(b'/')?;
    push_number(text, u64::from(bar.den))?;
    text.push(b' ')?;
    Ok(())
}

/// Appends the words of a bar, which rests without groups. The grace chords of its first note have been written or not.
fn push_sounding(
    text: &mut Vec<u8>,
    bar: &ScoreBar,
    written: bool,
    groups: &[Group],
) -> Result<(), AllocError>
    requires { IsScoreBar bar.now }
    ensures { Writes (words_text (sounding_words bar.now written groups.now)) text.old result text.new }
{
    match groups {
        [] => push_rest(text, bar),
        [_first, ..] => push_groups(text, bar.sf, written, groups),
    }
}

/// The grace chords before the first note of a bar.
pub(crate) fn first_graces<'a>(groups: &[Group<'a>]) -> &'a [Keys]
    ensures { result.now ≡ definitions.first_graces groups.now }
{
    match groups {
        [] => &[],
        [group, ..] => match group.notes.as_slice() {
            [] => &[],
            [note, ..] => note.graces,
        },
    }
}

/// Appends the words of a bar that begins with so many silent grace chords.
fn push_bar_words(
    text: &mut Vec<u8>,
    bar: &ScoreBar,
    silent: usize,
    groups: &[Group],
) -> Result<(), AllocError>
    requires { IsScoreBar bar.now }
    ensures { Writes (words_text (bar_words bar.now silent groups.now)) text.old result text.new }
{
    if silent == 0 {
        return push_sounding(text, bar, false, groups);
    }
    push_graces(text, bar.sf, silent, first_graces(groups))?;
    push_sounding(text, bar, true, groups)
}

/// Writes the line of a bar that begins with so many silent grace chords.
pub(crate) fn write_bar(
    text: &mut Vec<u8>,
    bar: &ScoreBar,
    silent: usize,
    groups: &[Group],
) -> Result<(), AllocError>
    requires { IsScoreBar bar.now }
    ensures { WritesLines (bar_line bar.now silent groups.now ∷ []) text.old result text.new }
{
    push_bar_words(text, bar, silent, groups)?;
    text.extend_from_slice(b"|\n")
}
