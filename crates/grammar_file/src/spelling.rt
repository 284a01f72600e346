ghost use Rattle.grammar_file.specs.Names.{is_name, is_name_byte};
ghost use Rattle.std.specs.Prelude.{◌≡◌};

/// Whether the byte can stand in a name.
fn is_name_byte(byte: u8) -> bool
    ensures { result ≡ is_name_byte byte }
{
    byte.is_ascii_alphanumeric() || byte == b'_'
}

/// Whether the word can name a symbol.
pub(crate) fn is_name(word: &[u8]) -> bool
    ensures { result ≡ is_name word.now }
{
    match word {
        [first, rest @ ..] if first.is_ascii_uppercase() && rest.len() <= 15 => {
            rest.iter().all(|byte| is_name_byte(*byte))
        }
        _ => false,
    }
}
