ghost use Rattle.std.specs.Prelude.{◌≡◌};

use std::marker::Model;

/// The numbers of the rules of a tree in preorder: each before those of its children, and these from the first to the last.
#[derive(Drop)]
pub struct RuleList {
    rules: Vec<u16>,
}

impl Model for RuleList {
    ghost use Rattle.std.specs.Prelude.{ℕ, List};

    ghost Value = { List ℕ };

    ghost view = { λ l. l.rules.items };
}

impl RuleList {
    /// The list of these numbers.
    pub fn of(rules: Vec<u16>) -> RuleList
        ensures { result ≡ rules.items }
    {
        RuleList { rules }
    }

    /// The numbers, first to last.
    pub fn as_slice(&self) -> &[u16]
        ensures { result.now ≡ self.now }
    {
        self.rules.as_slice()
    }
}
