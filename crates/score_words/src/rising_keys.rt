ghost use Rattle.score_words.specs.Keys.{keys_onward, rising_keys};
ghost use Rattle.std.specs.Int.{bit_at};
ghost use Rattle.std.specs.Prelude.{◌≡◌, ◌∷◌, ◌+◌, ◌<◌, ◌≤◌, [], ℕ, IfSome, MatchOption, length};

use rhythm_base::Keys;
use std::marker::Model;

/// The keys of a chord that are left, by rising key.
#[derive(Drop)]
pub struct RisingKeys {
    keys: Keys,
    /// The keys below this one are passed.
    from: u8,
    /// No key of the chord is this one or above.
    end: u8,
}

impl Model for RisingKeys {
    ghost use Rattle.score_words.specs.Keys.{keys_onward};
    ghost use Rattle.std.specs.Int.{bit_at};
    ghost use Rattle.std.specs.Prelude.{◌≡◌, ◌≤◌, ℕ, List};

    ghost Value = { List ℕ };

    ghost view = { λ r. keys_onward r.keys r.from };

    ghost invariant = { λ r. (r.end ≤ 128) × ((k : ℕ) → r.end ≤ k → bit_at r.keys k ≡ 0) };
}

/// The lowest key of a set that is not below `from`, where none is `end` or above.
fn key_onward(keys: Keys, from: u8, end: u8) -> Option<u8>
    requires few { end ≤ 128 }
    requires above { (k : ℕ) → end ≤ k → bit_at keys k ≡ 0 }
    ensures { MatchOption result (keys_onward keys from ≡ [])
        (λ key. (key < 128) × (keys_onward keys from ≡ key ∷ keys_onward keys (key + 1))) }
{
    'keys: for key in from..end {
        if keys.has(key) {
            return Some(key);
        }
    }
    None
}

impl RisingKeys {
    /// All keys of a chord.
    pub fn of(keys: Keys) -> RisingKeys
        ensures { result ≡ rising_keys keys }
    {
        RisingKeys {
            keys,
            from: keys.lowest(),
            end: keys.end(),
        }
    }

    /// Passes the next key, where one is left.
    pub fn next(&mut self) -> Option<u8>
        ensures keys { MatchOption result (self.old ≡ []) (λ key. self.old ≡ key ∷ self.new) }
        ensures range { IfSome result (λ key. key < 128) }
    {
        let key = key_onward(self.keys, self.from, self.end)?;
        self.from = key + 1;
        Some(key)
    }
}

/// How many keys are in a set.
pub fn key_count(keys: Keys) -> usize
    ensures { result ≡ length (rising_keys keys) }
{
    let mut left = RisingKeys::of(keys);
    let mut count = 0;
    'keys: while let Some(_key) = left.next() {
        count += 1;
    }
    count
}
