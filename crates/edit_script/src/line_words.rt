ghost use Rattle.edit_script.specs.Finds.{Finds};
ghost use Rattle.edit_script.specs.LineWords.{AreFour, AreThree, AreTwo, Begins, words_in};
ghost use Rattle.edit_script.specs.ScriptLines.{Are, words_of};
ghost use Rattle.rhythm_base.specs.Numerals.{IsNumber};
ghost use Rattle.std.specs.List.{join_with_byte};
ghost use Rattle.std.specs.Prelude.{◌≡◌, ◌≤◌, ◌∷◌, [], ℕ, ◌↔◌, IfSome, IsTrue, drop, option_map, slice_get};

use crate::number::number;
use std::marker::Model;

/// The words of a line that are left to be read, with one space between two of them.
#[derive(Drop)]
pub(crate) struct LineWords<'a> {
    // none after the last word
    rest: Option<&'a [u8]>,
}

impl<'a> Model for LineWords<'a> {
    ghost use Rattle.edit_script.specs.LineWords.{words_in};
    ghost use Rattle.std.specs.Prelude.{ℕ, List, option_map};

    ghost Value = { List (List ℕ) };

    ghost view = { λ w. words_in (option_map (λ x. x.now) w.rest) };
}

/// The first word of a text, and the text after the space that ends it.
fn first_word(text: &[u8]) -> (&[u8], Option<&[u8]>)
    ensures { words_of text.now ≡ result.0.now ∷ words_in (option_map (λ x. x.now) result.1) }
{
    match text.iter().position(|byte| *byte == b' ') {
        Some(end) => (&text[..end], Some(&text[end + 1..])),
        None => (text, None),
    }
}

impl<'a> LineWords<'a> {
    /// All words of a text.
    pub(crate) fn of(text: &'a [u8]) -> LineWords<'a>
        ensures { result ≡ words_of text.now }
    {
        LineWords { rest: Some(text) }
    }

    /// The next word, which is then after.
    pub(crate) fn next(&mut self) -> Option<&'a [u8]>
        ensures first { option_map (λ w. w.now) result ≡ slice_get self.old 0 }
        ensures after { self.new ≡ drop 1 self.old }
    {
        let (word, rest) = first_word(self.rest?);
        self.rest = rest;
        Some(word)
    }

    /// Whether no word is left.
    pub(crate) fn is_done(&self) -> bool
        ensures { IsTrue result ↔ Are [] self.now }
    {
        self.rest.is_none()
    }

    /// The text of the words that are left.
    pub(crate) fn text(&self) -> &'a [u8]
        ensures { result.now ≡ join_with_byte 32 self.now }
    {
        match self.rest {
            Some(text) => text,
            None => &[],
        }
    }

    /// The number that the next word is, up to a greatest one.
    pub(crate) fn number(&mut self, most: u32) -> Option<u32>
        ensures first { Finds (λ n. Begins (IsNumber most n) self.old) result }
        ensures within { IfSome result (λ n. n ≤ most) }
        ensures after { self.new ≡ drop 1 self.old }
    {
        number(self.next()?, most)
    }

    /// The number that the last word is, up to a greatest one.
    fn last(&mut self, most: u32) -> Option<u32>
        ensures words { Finds (λ n. Are (IsNumber most n ∷ []) self.old) result }
        ensures within { IfSome result (λ n. n ≤ most) }
    {
        let number = self.number(most)?;
        self.is_done().then_some(number)
    }

    /// The numbers that the last two words are, up to a greatest one for each.
    pub(crate) fn two(&mut self, first: u32, second: u32) -> Option<(u32, u32)>
        ensures words { Finds (λ n. AreTwo (first, second) n self.old) result }
        ensures within { IfSome result (λ n. (n.0 ≤ first) × (n.1 ≤ second)) }
    {
        let number = self.number(first)?;
        let last = self.last(second)?;
        Some((number, last))
    }

    /// The numbers that the last three words are, up to a greatest one for each.
    pub(crate) fn three(&mut self, first: u32, second: u32, third: u32) -> Option<(u32, u32, u32)>
        ensures words { Finds (λ n. AreThree (first, second, third) n self.old) result }
        ensures within { IfSome result (λ n. (n.0 ≤ first) × (n.1 ≤ second) × (n.2 ≤ third)) }
    {
        let number = self.number(first)?;
        let (next, last) = self.two(second, third)?;
        Some((number, next, last))
    }

    /// The numbers that the last four words are, up to a greatest one for each.
    pub(crate) fn four(
        &mut self,
        first: u32,
        second: u32,
        third: u32,
        fourth: u32,
    ) -> Option<(u32, u32, u32, u32)>
        ensures words { Finds (λ n. AreFour (first, second, third, fourth) n self.old) result }
        ensures within { IfSome result (λ n. (n.0 ≤ first) × (n.1 ≤ second) × (n.2 ≤ third) × (n.3 ≤ fourth)) }
    {
        let number = self.number(first)?;
        let (next, later, last) = self.three(second, third, fourth)?;
        Some((number, next, later, last))
    }
}
