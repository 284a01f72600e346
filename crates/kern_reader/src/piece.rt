ghost use Rattle.kern_reader.specs.Text.{pieces, pieces_in};
ghost use Rattle.std.specs.Prelude.{◌≡◌, ◌<◌, ◌∷◌, IfSome, length, option_map};

/// What stands before the first byte of this kind, and after it where there is one.
pub(crate) fn first_piece(text: &[u8], byte: u8) -> (&[u8], Option<&[u8]>)
    ensures pieces { pieces byte text.now ≡ result.0.now ∷ pieces_in byte (option_map (λ x. x.now) result.1) }
    ensures shorter { IfSome result.1 (λ x. length x.now < length text.now) }
{
    match text.iter().position(|other| *other == byte) {
        Some(end) => (&text[..end], Some(&text[end + 1..])),
        None => (text, None),
    }
}
