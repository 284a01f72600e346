ghost use Rattle.kern_writer.specs.Changes.{accidentals, key_text};
ghost use Rattle.kern_writer.specs.Records.{alike};
ghost use Rattle.kern_writer.specs.Shared.{shared_text};
ghost use Rattle.kern_writer.specs.Writing.{IsBounded, WritesRecords};
ghost use Rattle.score_words.specs.Writing.{Writes};
ghost use Rattle.std.specs.Prelude.{◌++◌, ◌∷◌, [], codes, decimal};

use crate::fault::ScoreFault;
use crate::kern_text::KernText;
use score_words::{push_between, push_number};
use std::alloc::AllocError;

/// The accidentals of keys with sharps, the first of one sharp.
const SHARPS: [u8; 14] = *b"f#c#g#d#a#e#b#";

/// And of keys with flats.
const FLATS: [u8; 14] = *b"b-e-a-d-g-c-f-";

/// A token that stands alike in all columns of a record.
#[derive(Clone, Copy)]
pub(crate) enum SharedToken {
    /// The head of a **kern column.
    Kern,
    /// A key signature, by its sharps, flats below 0.
    Key(i8),
    /// A time signature.
    Signature { num: u8, den: u8 },
    /// A tempo, in quarter notes of a minute.
    Tempo(u64),
    /// The barline before the bar of this number, from 1.
    Barline(u64),
    /// The barline after the last bar.
    LastBarline,
    /// The end of a column.
    End,
}

/// Appends the accidentals of a key signature.
fn push_accidentals(text: &mut Vec<u8>, sf: i8) -> Result<(), AllocError>
    ensures { Writes (accidentals sf) text.old result text.new }
{
    let count = usize::from(sf.unsigned_abs()).min(7);
    let names = if sf < 0 { &FLATS } else { &SHARPS };
    text.extend_from_slice(&names[..2 * count])
}

/// Appends a key signature.
fn push_key(text: &mut Vec<u8>, sf: i8) -> Result<(), AllocError>
    ensures { Writes (key_text sf) text.old result text.new }
{
    text.extend_from_slice(b"*k[")?;
    push_accidentals(text, sf)?;
    text.extend_from_slice(b"]")
}

/// Appends a time signature.
fn push_signature(text: &mut Vec<u8>, num: u8, den: u8) -> Result<(), AllocError>
    ensures { Writes (codes "*M" ++ decimal num ++ codes "/" ++ decimal den) text.old result text.new }
{
    text.extend_from_slice(b"*M")?;
    push_number(text, u64::from(num))?;
    text.extend_from_slice(b"/")?;
    push_number(text, u64::from(den))
}

/// Appends a word and a number right after it.
fn push_numbered(text: &mut Vec<u8>, word: &[u8], number: u64) -> Result<(), AllocError>
    ensures { Writes (word.now ++ decimal number) text.old result text.new }
{
    text.extend_from_slice(word)?;
    push_number(text, number)
}

/// Appends a token that stands alike in all columns.
fn push_shared(text: &mut Vec<u8>, token: SharedToken) -> Result<(), AllocError>
    ensures { Writes (shared_text token) text.old result text.new }
{
    match token {
        SharedToken::Kern => text.extend_from_slice(b"**kern"),
        SharedToken::Key(sf) => push_key(text, sf),
        SharedToken::Signature { num, den } => push_signature(text, num, den),
        SharedToken::Tempo(quarters) => push_numbered(text, b"*MM", quarters),
        SharedToken::Barline(number) => push_numbered(text, b"=", number),
        SharedToken::LastBarline => text.extend_from_slice(b"=="),
        SharedToken::End => text.extend_from_slice(b"*-"),
    }
}

/// Writes a record of a token that stands alike in all columns.
pub(crate) fn write_shared(
    text: &mut KernText,
    voices: usize,
    token: SharedToken,
) -> Result<(), ScoreFault>
    requires { IsBounded text.old }
    ensures { WritesRecords (alike voices (shared_text token) ∷ []) text.old result text.new }
{
    'columns: for number in 0..voices {
        push_between(&mut text.bytes, b'\t', number)?;
        push_shared(&mut text.bytes, token)?;
    }
    text.end_record()
}
