ghost use Rattle.std.specs.Prelude.{◌≡◌, nat_lt};
ghost use Rattle.std.specs.List.{list_all};
ghost use Rattle.rhythm_base.specs.Bodies.{can_cut, sizes};
ghost use Rattle.rhythm_base.specs.Trees.{suits};

use rhythm_base::{Body, Rule};

/// Whether the rule is one of the symbol, and can cut the width in units.
pub fn suits(rule: &Rule, width: u16, symbol: u8) -> bool
    ensures { result ≡ suits (Some rule.now) (width, symbol) }
{
    rule.lhs == symbol && can_cut(&rule.body, width)
}

/// Whether a node of this width, in units, may have this body: a cut needs two parts or more that are whole units wide.
fn can_cut(body: &Body, width: u16) -> bool
    ensures { result ≡ can_cut body.now width }
{
    match body {
        Body::Split(symbols) => {
            let count = symbols.as_slice().len();
            count > 1 && width as usize % count.max(1) == 0
        }
        Body::Parts(portions) => {
            let parts = portions.as_slice();
            parts.len() > 1 && are_some(parts) && width as u128 % sizes(parts).max(1) == 0
        }
        _ => true,
    }
}

/// No size is 0.
fn are_some(parts: &[(u8, u8)]) -> bool
    ensures { result ≡ list_all (λ q. nat_lt 0 q.0) parts.now }
{
    parts.iter().all(|part| part.0 > 0)
}

/// The sum of the sizes of unequal parts.
pub fn sizes(parts: &[(u8, u8)]) -> u128
    ensures { result ≡ sizes parts.now }
{
    let mut total = 0u128;
    for part in parts {
        total += part.0 as u128;
    }
    total
}
