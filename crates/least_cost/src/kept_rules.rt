ghost use Rattle.grammar_plan.specs.Drafts.{IsLonger};
ghost use Rattle.least_cost.specs.KeptRules.{rules_of};
ghost use Rattle.std.specs.Prelude.{◌≡◌, IfOk};

use std::alloc::{AllocError, Global};

/// The rules of a table. A few stand in the table itself, and take no memory of their own.
#[derive(Drop)]
pub enum KeptRules {
    /// Up to 16, and then any numbers.
    Few([u16; 16]),
    Many(Vec<u16>),
}

impl KeptRules {
    /// Keeps these rules.
    #[inline(always)]
    pub fn keep(alloc: Global, rules: &[u16]) -> Result<KeptRules, AllocError>
        ensures { IfOk result (λ r. IsLonger rules.now (rules_of r)) }
    {
        let count = rules.len();
        if count > 16 {
            return Ok(KeptRules::Many(rules.to_vec(alloc)?));
        }
        let mut few = [0u16; 16];
        few[..count].copy_from_slice(rules);
        Ok(KeptRules::Few(few))
    }

    /// Equal rules.
    pub fn copy(&self, alloc: Global) -> Result<KeptRules, AllocError>
        ensures { IfOk result (λ r. rules_of r ≡ rules_of self.now) }
    {
        match self {
            KeptRules::Few(few) => Ok(KeptRules::Few(*few)),
            KeptRules::Many(many) => Ok(KeptRules::Many(many.as_slice().to_vec(alloc)?)),
        }
    }

    /// The rules, and whatever comes after them.
    pub fn as_slice(&self) -> &[u16]
        ensures { result.now ≡ rules_of self.now }
    {
        match self {
            KeptRules::Few(few) => few,
            KeptRules::Many(many) => many.as_slice(),
        }
    }
}
