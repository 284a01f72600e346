ghost use Rattle.derivation.specs.Score.{IsKeySignature};
ghost use Rattle.page_writer.specs.Groups.{bracket_word, group_words, groups_words, notes_words};
ghost use Rattle.page_writer.specs.Words.{words_text};
ghost use Rattle.score_words.specs.Writing.{Writes};
ghost use Rattle.std.specs.Prelude.{◌∷◌, [], IfSome};

use crate::note::push_note;
use notation::{Group, Note, Ratio};
use score_words::push_number;
use std::alloc::AllocError;

/// Appends the words of notes. The grace chords of the first have been written or not.
fn push_notes(
    text: &mut Vec<u8>,
    sf: Option<i8>,
    written: bool,
    notes: &[Note],
) -> Result<(), AllocError>
    requires { IfSome sf IsKeySignature }
    ensures { Writes (words_text (notes_words sf written notes.now)) text.old result text.new }
{
    let mut graces_written = written;
    'notes: for note in notes {
        push_note(text, sf, graces_written, note)?;
        graces_written = false;
    }
    Ok(())
}

/// Appends what opens a bracket, and a space.
fn push_bracket(text: &mut Vec<u8>, ratio: Ratio) -> Result<(), AllocError>
    ensures { Writes (words_text (bracket_word ratio ∷ [])) text.old result text.new }
{
    text.extend_from_slice(b"\\tuplet ")?;
    push_number(text, ratio.actual)?;
    text.push(b'/')?;
    push_number(text, ratio.normal)?;
    text.extend_from_slice(b" { ")
}

/// Appends the words of a group. The grace chords of its first note have been written or not.
fn push_group(
    text: &mut Vec<u8>,
    sf: Option<i8>,
    written: bool,
    group: &Group,
) -> Result<(), AllocError>
    requires { IfSome sf IsKeySignature }
    ensures { Writes (words_text (group_words sf written group.now)) text.old result text.new }
{
    if group.ratio.actual <= 1 {
        return push_notes(text, sf, written, &group.notes);
    }
    push_bracket(text, group.ratio)?;
    push_notes(text, sf, written, &group.notes)?;
    text.extend_from_slice(b"} ")
}

/// Appends the words of groups. The grace chords of their first note have been written or not.
pub(crate) fn push_groups(
    text: &mut Vec<u8>,
    sf: Option<i8>,
    written: bool,
    groups: &[Group],
) -> Result<(), AllocError>
    requires { IfSome sf IsKeySignature }
    ensures { Writes (words_text (groups_words sf written groups.now)) text.old result text.new }
{
    let mut graces_written = written;
    'groups: for group in groups {
        push_group(text, sf, graces_written, group)?;
        graces_written = false;
    }
    Ok(())
}
