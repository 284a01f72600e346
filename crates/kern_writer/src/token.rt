ghost use Rattle.kern_writer.specs.Records.{grace_column};
ghost use Rattle.score_words.specs.Writing.{Writes};
ghost use Rattle.std.specs.Prelude.{◌≡◌, ◌+◌, ◌<◌, length, slice_index_or, []};

use crate::chord::{push_grace, push_main};
use std::alloc::AllocError;
use std::marker::Model;
use voice_values::VoiceValue;

/// A token: what stands in the column of a voice at a place at which it has a value, and the grace tokens before it.
#[derive(Drop)]
pub(crate) struct Token<'c, 'a> {
    pub(crate) value: &'c VoiceValue<'a>,
    /// The next value of the voice goes on.
    pub(crate) next: bool,
    /// Black keys are flats.
    pub(crate) flats: bool,
}

impl<'c, 'a> Model for Token<'c, 'a> {
    ghost use Rattle.kern_writer.specs.Tokens.{Token, token};

    ghost Value = { Token };

    ghost view = { λ t. token t.flats t.value.now t.next };
}

impl<'c, 'a> Token<'c, 'a> {
    /// Where in its bar it stands.
    pub(crate) fn place(&self) -> u64
        ensures { result ≡ self.now.place }
    {
        let value = self.value;
        value.place
    }

    /// How many grace tokens stand before it.
    pub(crate) fn grace_count(&self) -> usize
        ensures { result ≡ length self.now.graces }
    {
        let value = self.value;
        value.graces().len()
    }

    /// Appends its main part.
    pub(crate) fn push_main(&self, text: &mut Vec<u8>) -> Result<(), AllocError>
        ensures { Writes self.now.main text.old result text.new }
    {
        push_main(text, self.flats, self.value, self.next)
    }

    /// Appends one of the grace tokens before it, by its number.
    fn push_grace(&self, text: &mut Vec<u8>, number: usize) -> Result<(), AllocError>
        requires { number < length self.now.graces }
        ensures { Writes (slice_index_or self.now.graces number []) text.old result text.new }
    {
        let value = self.value;
        push_grace(text, self.flats, value.graces()[number])
    }

    /// Appends what stands in a grace record, before so many later ones and the main one.
    pub(crate) fn push_grace_column(
        &self,
        text: &mut Vec<u8>,
        later: usize,
    ) -> Result<(), AllocError>
        ensures { Writes (grace_column (later + 1) self.now.graces) text.old result text.new }
    {
        let count = self.grace_count();
        if count <= later {
            text.extend_from_slice(b".")
        } else {
            self.push_grace(text, count - later - 1)
        }
    }
}
