ghost use Rattle.std.specs.Prelude.{◌≡◌};

use crate::token::Token;
use std::marker::Model;
use text_words::TimeSignature;

/// The columns of a data line.
#[derive(Drop)]
pub(crate) struct Tokens {
    tokens: Vec<Token>,
}

impl Model for Tokens {
    ghost use Rattle.std.specs.Prelude.{List};
    ghost use Rattle.kern_reader.specs.declared.token.Token.{Token};

    ghost Value = { List Token };

    ghost view = { λ t. t.tokens.items };
}

impl Tokens {
    /// These tokens.
    pub(crate) fn of(tokens: Vec<Token>) -> Tokens
        ensures { result ≡ tokens.items }
    {
        Tokens { tokens }
    }

    /// The tokens, first to last.
    pub(crate) fn as_slice(&self) -> &[Token]
        ensures { result.now ≡ self.now }
    {
        self.tokens.as_slice()
    }
}

/// What a line says.
#[derive(Drop)]
pub(crate) enum KernLine {
    /// The head of so many spines.
    Heading(usize),
    Signature(TimeSignature),
    /// Another interpretation.
    Other,
    /// The end of all spines.
    Ending,
    Barline,
    LastBarline,
    Data(Tokens),
    /// None of these.
    Unread,
}

/// How far a text has come.
#[derive(Clone, Copy)]
pub(crate) enum Stage {
    /// No line yet.
    Head,
    Body,
    /// After the last barline.
    Last,
    /// After the end of the spines.
    Over,
}
