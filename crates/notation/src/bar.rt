ghost use Rattle.derivation.specs.Score.{IsScoreBar};
ghost use Rattle.notation.specs.Bars.{AreBarGroups, AreGroups};
ghost use Rattle.notation.specs.Places.{IsOddPart};
ghost use Rattle.notation.specs.Runs.{AreRun};
ghost use Rattle.notation.specs.Tokens.{is_silent};
ghost use Rattle.std.specs.List.{list_all};
ghost use Rattle.std.specs.Prelude.{◌≡◌, ◌≤◌, All, IfOk, map, sum};

use crate::cut::bar_tokens;
use crate::groups::first_group;
use crate::note::{BarGroups, Group};
use crate::notes::group;
use crate::odd::Odd;
use crate::rests::join_rests;
use crate::token::{Token, past};
use derivation::ScoreBar;
use rhythm_base::{Sound, Units};
use std::alloc::{AllocError, Global};
use voice_values::bar_values;

/// Whether no token has keys.
fn are_silent(tokens: &[Token]) -> bool
    ensures { result ≡ list_all is_silent tokens.now }
{
    tokens.iter().all(|token| token.is_silent())
}

/// The tokens in groups.
fn groups_of<'a>(
    alloc: Global,
    resolution: Units,
    odd: Odd,
    tokens: &[Token<'a>],
) -> Result<Vec<Group<'a>>, AllocError>
    requires odd { IsOddPart resolution odd }
    requires run { AreRun resolution tokens.now }
    ensures { IfOk result (λ v. AreGroups resolution odd tokens.now v.items) }
{
    let mut groups = Vec::new(alloc);
    let mut later = tokens;
    'groups: while !later.is_empty() {
        let count = first_group(resolution, odd, later);
        groups.push(group(alloc, resolution, odd, &later[..count])?)?;
        later = past(later, count);
    }
    Ok(groups)
}

/// The groups of a bar with these sounds, after which a tie goes on over the barline or none does.
pub(crate) fn bar_groups<'a>(
    alloc: Global,
    resolution: Units,
    odd: Odd,
    bar: &ScoreBar,
    after: bool,
    sounds: &'a [Sound],
) -> Result<BarGroups<'a>, AllocError>
    requires odd { IsOddPart resolution odd }
    requires bar { IsScoreBar bar.now }
    requires some { All (λ s. 1 ≤ s.width) sounds.now }
    requires full { sum (map (λ s. s.width) sounds.now) ≡ resolution }
    ensures { IfOk result (λ g. AreBarGroups resolution bar.now after sounds.entry.now g) }
{
    let values = bar_values(alloc, resolution, bar, sounds)?;
    let tokens = bar_tokens(alloc, resolution, odd, bar, after, &values)?;
    if are_silent(&tokens) {
        return Ok(BarGroups {
            groups: Vec::new(alloc),
        });
    }
    let joined = join_rests(alloc, resolution, bar, &tokens)?;
    let groups = groups_of(alloc, resolution, odd, &joined)?;
    Ok(BarGroups { groups })
}
