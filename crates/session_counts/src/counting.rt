ghost use Rattle.session_counts.specs.Counting.{AreCountedIn, AreRaisedBy};
ghost use Rattle.std.specs.Prelude.{◌≡◌, ◌<◌, All, OnOk, length, map};

use edit_session::Session;
use rule_counts::RuleCounts;
use std::alloc::{AllocError, Global};

/// Counts the rules in these lists.
fn count_lists(counts: &mut RuleCounts, lists: &[&[u16]])
    requires { All (λ list. All (λ r. r < length counts.old) list) (map (λ l. l.now) lists.now) }
    ensures raised { AreRaisedBy (length counts.old) (map (λ l. l.now) lists.now) counts.old counts.new }
    ensures of_each { length counts.new ≡ length counts.old }
{
    'lists: for list in lists {
        counts.add(list);
    }
}

/// Counts the rules in the least derivations of all voices of a session. Where there is not enough memory, some of them may be counted.
pub fn count_rules(
    alloc: Global,
    session: &Session,
    counts: &mut RuleCounts,
) -> Result<(), AllocError>
    requires { length counts.old ≡ length session.now.grammar.rules }
    ensures counted { OnOk result (AreCountedIn session.now.grammar session.now.performance counts.old counts.new) }
    ensures of_each { length counts.new ≡ length counts.old }
{
    let voices = session.performance().channels().len();
    'voices: for voice in 0..voices {
        let lists = session.rule_lists(alloc, voice)?;
        count_lists(counts, lists.as_slice());
    }
    Ok(())
}
