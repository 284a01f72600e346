ghost use Rattle.edit_script.specs.Finds.{Finds};
ghost use Rattle.edit_script.specs.Keywords.{spelling};
ghost use Rattle.std.specs.Prelude.{◌≡◌};

/// The first word of a command.
#[derive(Clone, Copy, Debug, PartialEq, Eq)]
pub(crate) enum Keyword {
    Add,
    Drop,
    Move,
    Barline,
    Pin,
    Unpin,
    AddBar,
    DropBar,
    Score,
    Alt,
    Quit,
}

/// The keyword that the word is.
pub(crate) fn keyword_of(word: &[u8]) -> Option<Keyword>
    ensures { Finds (λ k. word.now ≡ spelling k) result }
{
    match word {
        _ if word == b"add".as_slice() => Some(Keyword::Add),
        _ if word == b"drop".as_slice() => Some(Keyword::Drop),
        _ if word == b"move".as_slice() => Some(Keyword::Move),
        _ if word == b"barline".as_slice() => Some(Keyword::Barline),
        _ if word == b"pin".as_slice() => Some(Keyword::Pin),
        _ if word == b"unpin".as_slice() => Some(Keyword::Unpin),
        _ if word == b"addbar".as_slice() => Some(Keyword::AddBar),
        _ if word == b"dropbar".as_slice() => Some(Keyword::DropBar),
        _ if word == b"score".as_slice() => Some(Keyword::Score),
        _ if word == b"alt".as_slice() => Some(Keyword::Alt),
        _ if word == b"quit".as_slice() => Some(Keyword::Quit),
        _ => None,
    }
}
