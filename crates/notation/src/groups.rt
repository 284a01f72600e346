ghost use Rattle.notation.specs.Groups as groups;
ghost use Rattle.notation.specs.Groups.{IsFirstGroup};
ghost use Rattle.notation.specs.Runs.{AreRun};
ghost use Rattle.notation.specs.Tokens.{token_length};
ghost use Rattle.rhythm_base.specs.Lists.{greatest};
ghost use Rattle.std.specs.Prelude.{◌≡◌, ◌≤◌, All, length, map};

use crate::odd::Odd;
use crate::place::{is_plain, quarter_of};
use crate::token::Token;
use rhythm_base::Units;

/// The length of the longest of the tokens.
fn longest(tokens: &[Token]) -> u64
    requires { All (λ t. t.start ≤ t.end) tokens.now }
    ensures { result ≡ greatest (map token_length tokens.now) }
{
    tokens
        .iter()
        .map(|token| token.length())
        .fold(0, |most, length| most.max(length))
}

/// Where the tokens start.
fn group_start(tokens: &[Token]) -> u64
    ensures { result ≡ groups.group_start tokens.now }
{
    match tokens {
        [] => 0,
        [first, ..] => first.start,
    }
}

/// Where the tokens end.
fn group_end(tokens: &[Token]) -> u64
    ensures { result ≡ groups.group_end tokens.now }
{
    match tokens.last() {
        None => 0,
        Some(last) => last.end,
    }
}

/// Whether no tuplet follows at once.
fn next_is_plain(odd: Odd, more: &[Token]) -> bool
    ensures { result ≡ groups.next_is_plain odd more.now }
{
    match more {
        [] => true,
        [next, ..] => is_plain(odd, next.end),
    }
}

/// Whether tokens are a whole group, before these.
fn is_whole(resolution: Units, odd: Odd, group: &[Token], more: &[Token]) -> bool
    requires { AreRun resolution group.now }
    ensures { result ≡ groups.is_whole resolution odd group.now more.now }
{
    let _units = resolution.count();
    let end = group_end(group);
    is_plain(odd, end)
        && (group.len() == 1
            || end % quarter_of(resolution) == 0
            || 3 * longest(group) <= end - group_start(group)
            || next_is_plain(odd, more))
}

/// How many of the tokens, of which there is one at least, are the first group.
pub(crate) fn first_group(resolution: Units, odd: Odd, tokens: &[Token]) -> usize
    requires run { AreRun resolution tokens.now }
    requires some { 1 ≤ length tokens.now }
    ensures some { 1 ≤ result }
    ensures few { result ≤ length tokens.now }
    ensures group { IsFirstGroup resolution odd result tokens.now }
{
    let mut count = 1;
    'tokens: while count < tokens.len() {
        let (group, more) = tokens.split_at(count);
        if is_whole(resolution, odd, group, more) {
            return count;
        }
        count += 1;
    }
    count
}
