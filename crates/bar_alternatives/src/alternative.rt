use rhythm_base::Tree;
use std::marker::Model;

/// A tree that a bar of a voice can have, and the least cost of a derivation of the voice that has it there.
#[derive(Drop)]
pub struct Alternative {
    pub total: u64,
    pub tree: Tree,
}

impl Model for Alternative {
    ghost use Rattle.rhythm_base.specs.Forest.{Tree};
    ghost use Rattle.rhythm_base.specs.TreeCode.{tree_code};
    ghost use Rattle.std.specs.Coded.{coded×, coded_ℕ};
    ghost use Rattle.std.specs.Prelude.{ℕ};

    ghost Value = { ℕ × Tree };

    ghost coded = { coded× coded_ℕ tree_code };

    ghost view = { λ a. (a.total, a.tree) };
}
