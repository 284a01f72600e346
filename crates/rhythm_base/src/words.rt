ghost use Rattle.rhythm_base.specs.Pieces.{AreEnds, pieces};
ghost use Rattle.std.specs.Prelude.{◌≡◌, ◌∷◌, ◌++◌, [], OnErr, OnOk, length, option_map, slice_get};

use std::alloc::{AllocError, Global};
use std::marker::Model;

/// Texts in one text.
#[derive(Drop)]
pub struct Words {
    text: String,
    ends: Vec<usize>,
}

impl Model for Words {
    ghost use Rattle.rhythm_base.specs.Pieces.{AreEnds, pieces};
    ghost use Rattle.std.specs.Prelude.{ℕ, List, string_bytes};

    ghost Value = { List (List ℕ) };

    ghost view = { λ w. pieces (string_bytes w.text) 0 w.ends.items };

    ghost invariant = { λ w. AreEnds (string_bytes w.text) 0 w.ends.items };
}

impl Words {
    pub fn new(alloc: Global) -> Words
        ensures { result ≡ [] }
    {
        Words {
            text: String::new(alloc),
            ends: Vec::new(alloc),
        }
    }

    pub fn count(&self) -> usize
        ensures { result ≡ length self.now }
    {
        self.ends.len()
    }

    pub fn push(&mut self, word: &str) -> Result<(), AllocError>
        ensures ok { OnOk result (self.new ≡ self.old ++ word.now ∷ []) }
        ensures err { OnErr result (self.new ≡ self.old) }
    {
        self.ends.reserve(1)?;
        self.text.push_str(word)?;
        let end = self.text.len();
        self.ends.push(end).unwrap();
        Ok(())
    }

    pub fn get(&self, at: usize) -> Option<&str>
        ensures { option_map (λ s. s.now) result ≡ slice_get self.now at }
    {
        piece_at(self.text.as_str(), self.ends.as_slice(), at)
    }
}

/// The piece between two ends.
fn piece_at<'a>(text: &'a str, ends: &[usize], at: usize) -> Option<&'a str>
    requires { AreEnds text.now 0 ends.now }
    ensures { option_map (λ s. s.now) result ≡ slice_get (pieces text.entry.now 0 ends.now) at }
{
    if at >= ends.len() {
        return None;
    }
    if at == 0 {
        return Some(&text[0..ends[0]]);
    }
    Some(&text[ends[at - 1]..ends[at]])
}

#[cfg(test)]
mod tests {
    use super::*;
    use std::test::Fail;

    #[test]
    fn keeps_words_in_order(rt: HostRuntime) -> Result<(), Fail> {
        let mut words = Words::new(rt.alloc());
        words.push("transcribe")?;
        words.push("")?;
        words.push("größe")?;
        assert!(rt; words.count() == 3);
        assert!(rt; words.get(0) == Some("transcribe"));
        assert!(rt; words.get(1) == Some(""));
        assert!(rt; words.get(2) == Some("größe"));
        assert!(rt; words.get(3).is_none());
        Ok(())
    }
}
