ghost use Rattle.edit_session.specs.Asking.{AreBestByTables, CanBePinned};
ghost use Rattle.chain_bars.specs.Products.{RisesTwice};
ghost use Rattle.rhythm_base.specs.Readable.{IsReadable};
ghost use Rattle.rhythm_base.specs.declared.limits.TheConstants.{MOST_BARS};
ghost use Rattle.edit_session.specs.LeastTrees.{IsTableIn};
ghost use Rattle.std.specs.List.{position};
ghost use Rattle.std.specs.Prelude.{◌≡◌, ◌==◌, ◌<◌, ◌≤◌, All, IfOk, length};

use crate::voice_tables::VoiceTables;
use bar_alternatives::{Alternative, alternatives};
use carry_matrix::Steps;
use rhythm_base::{Grammar, Tag};
use std::alloc::{AllocError, Global};

/// The place of a channel among the voices.
pub fn place_of(channels: &[u8], channel: u8) -> Option<usize>
    ensures { result ≡ position (λ c. c == channel) channels.now }
{
    channels.iter().position(|own| *own == channel)
}

/// The first `count` alternatives of a bar of a voice, by the voice's tables: the best trees of the bar, its pin lifted, between
/// the least costs of the bars before it and of those after it.
pub fn alternatives_of<P: Tag>(
    alloc: Global,
    grammar: &Grammar,
    voice: &VoiceTables,
    bar: usize,
    count: u32,
    products: &mut Steps<P>,
) -> Result<Vec<Alternative>, AllocError>
    requires readable { IsReadable grammar.now }
    requires tables { All (IsTableIn grammar.now) voice.now.tables }
    requires few { length voice.now.tables ≤ MOST_BARS }
    requires bar { bar < length voice.now.tables }
    ensures best { IfOk result (λ list. AreBestByTables grammar.now voice.now.tables bar count list.items) }
    ensures shapes { IfOk result (λ list. All CanBePinned list.items) }
    ensures products { RisesTwice (length voice.now.tables) products.old products.new }
{
    let around = voice.around(bar, products);
    let input = voice.tables()[bar].input();
    let list = alternatives(alloc, grammar, input, &around.before, &around.after, count)?;
    Ok(list)
}
