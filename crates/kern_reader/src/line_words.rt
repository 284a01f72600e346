ghost use Rattle.kern_reader.specs.Lines as definitions;
ghost use Rattle.kern_reader.specs.Lines.{all_are};
ghost use Rattle.kern_reader.specs.Text.{columns};
ghost use Rattle.std.specs.List.{list_any};
ghost use Rattle.std.specs.Prelude.{◌≡◌, ◌≤◌, ◌==◌, count_by, drop, length};
ghost use Rattle.text_words.specs.Lines as lines;

/// How many tabs a line has.
fn tabs(line: &[u8]) -> usize
    ensures count { result ≡ count_by (λ b. b == 9) line.now }
    ensures within { result ≤ length line.now }
{
    line.iter().filter(|byte| **byte == b'\t').count()
}

/// How many columns a line has.
pub(crate) fn width(line: &[u8]) -> usize
    ensures { result ≡ length (columns line.now) }
{
    tabs(line) + 1
}

/// Whether every column is this word.
pub(crate) fn all_are(word: &[u8], line: &[u8]) -> bool
    ensures { result ≡ all_are word.now (columns line.now) }
{
    line.split(|byte| *byte == b'\t')
        .all(|column| column == word)
}

/// Whether the text begins with the byte.
pub(crate) fn begins_with(byte: u8, text: &[u8]) -> bool
    ensures { result ≡ lines.begins_with byte text.now }
{
    match text {
        [] => false,
        [first, _rest @ ..] => *first == byte,
    }
}

/// Whether the word is no interpretation that may stand in a column.
fn is_refused_word(word: &[u8]) -> bool
    ensures { result ≡ definitions.is_refused_word word.now }
{
    !begins_with(b'*', word)
        || word.starts_with(b"**".as_slice())
        || word == b"*^".as_slice()
        || word == b"*v".as_slice()
        || word == b"*x".as_slice()
        || word == b"*+".as_slice()
        || word == b"*-".as_slice()
}

/// Whether some column is no interpretation that may stand there.
pub(crate) fn has_refused_word(line: &[u8]) -> bool
    ensures { result ≡ list_any definitions.is_refused_word (columns line.now) }
{
    line.split(|byte| *byte == b'\t')
        .any(|column| is_refused_word(column))
}

/// Whether a digit stands after the first two bytes.
fn has_digit(word: &[u8]) -> bool
    ensures { result ≡ definitions.digit_first (drop 2 word.now) }
{
    match word {
        [_first, _second, third, _rest @ ..] => third.is_ascii_digit(),
        _ => false,
    }
}

/// Whether the word begins a signature.
fn begins_signature(word: &[u8]) -> bool
    ensures { result ≡ definitions.begins_signature word.now }
{
    word.starts_with(b"*M".as_slice()) && has_digit(word)
}

/// Whether some column begins a signature.
pub(crate) fn has_signature(line: &[u8]) -> bool
    ensures { result ≡ list_any definitions.begins_signature (columns line.now) }
{
    line.split(|byte| *byte == b'\t')
        .any(|column| begins_signature(column))
}
