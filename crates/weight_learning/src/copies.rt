ghost use Rattle.std.specs.Prelude.{◌≡◌, IfOk, map};

use rhythm_base::{Body, Grammar, Kids, Name, Portions, Rule};
use std::alloc::{AllocError, Global};

/// An equal body.
fn copied_body(alloc: Global, body: &Body) -> Result<Body, AllocError>
    ensures { IfOk result (λ b. b ≡ body.now) }
{
    match body {
        Body::Split(kids) => Ok(Body::Split(Kids::of(Vec::from_slice(alloc, kids.as_slice())?))),
        Body::Parts(portions) => Ok(Body::Parts(Portions::of(Vec::from_slice(
            alloc,
            portions.as_slice(),
        )?))),
        Body::Note => Ok(Body::Note),
        Body::Short => Ok(Body::Short),
        Body::Tie => Ok(Body::Tie),
        Body::Rest => Ok(Body::Rest),
        Body::Grace(graces) => Ok(Body::Grace(*graces)),
    }
}

/// An equal rule but for its weight.
pub fn with_weight(alloc: Global, rule: &Rule, weight: u32) -> Result<Rule, AllocError>
    ensures { IfOk result (λ r. r ≡ record rule.now { weight = weight }) }
{
    Ok(Rule {
        lhs: rule.lhs,
        weight,
        body: copied_body(alloc, &rule.body)?,
    })
}

/// Equal names.
fn copied_names(alloc: Global, names: &[Name]) -> Result<Vec<Name>, AllocError>
    ensures { IfOk result (λ v. v.items ≡ names.now) }
{
    let mut copies = Vec::with_capacity(alloc, names.len())?;
    'names: for name in names {
        copies.push(Name::of(Vec::from_slice(alloc, name.as_slice())?))?;
    }
    Ok(copies)
}

/// Equal rules.
fn copied_rules(alloc: Global, rules: &[Rule]) -> Result<Vec<Rule>, AllocError>
    ensures { IfOk result (λ v. v.items ≡ rules.now) }
{
    let mut copies = Vec::with_capacity(alloc, rules.len())?;
    'rules: for rule in rules {
        copies.push(with_weight(alloc, rule, rule.weight)?)?;
    }
    Ok(copies)
}

/// The grammar with these rules. The rest is copied.
pub fn with_rules(alloc: Global, grammar: &Grammar, rules: Vec<Rule>) -> Result<Grammar, AllocError>
    ensures { IfOk result (λ g. g ≡ record grammar.now { rules = rules.items }) }
{
    Ok(Grammar {
        version: grammar.version,
        resolution: grammar.resolution,
        window: grammar.window,
        early: grammar.early,
        late: grammar.late,
        names: copied_names(alloc, &grammar.names)?,
        starts: Vec::from_slice(alloc, &grammar.starts)?,
        rules,
    })
}

/// An equal grammar.
pub fn copied(alloc: Global, grammar: &Grammar) -> Result<Grammar, AllocError>
    ensures { IfOk result (λ g. g ≡ grammar.now) }
{
    let rules = copied_rules(alloc, &grammar.rules)?;
    with_rules(alloc, grammar, rules)
}
