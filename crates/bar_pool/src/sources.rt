ghost use Rattle.bar_pool.specs.Known.{KnowsInputs};
ghost use Rattle.bar_pool.specs.Sources.{AreSources, IsBare, IsSource, searched_from};
ghost use Rattle.std.specs.Prelude.{◌≡◌, ◌+◌, ◌<◌, ◌↔◌, IfOk, IsTrue, OnOk, length};

use crate::input_key::InputKey;
use rhythm_base::BarInput;
use std::alloc::{AllocError, Global};
use std::collections::HashMap;

/// Where the tables of inputs come from.
#[derive(Drop)]
pub struct Sources {
    /// For each input the number of the last one before it that is equal, whose table it takes over.
    pub equals: Vec<Option<usize>>,
    /// The numbers of the others, in order. They are searched.
    pub searched: Vec<usize>,
}

impl Sources {
    /// Looks for equal inputs. Bare ones are all searched: that takes no longer than to look for an equal one. The map has
    /// a fixed hasher: there are at most 16,384 inputs, and whoever makes many of one hash only waits longer.
    pub fn of(alloc: Global, inputs: &[BarInput]) -> Result<Sources, AllocError>
        ensures equals { IfOk result (λ s. AreSources inputs.now s.equals.items) }
        ensures searched { IfOk result (λ s. s.searched.items ≡ searched_from 0 s.equals.items) }
    {
        let mut known = HashMap::with_capacity(alloc, inputs.len())?;
        let mut equals = Vec::with_capacity(alloc, inputs.len())?;
        let mut searched = Vec::with_capacity(alloc, inputs.len())?;
        'inputs: for number in 0..inputs.len() {
            let equal = equal_before(&mut known, inputs, number)?;
            if equal.is_none() {
                searched.push(number)?;
            }
            equals.push(equal)?;
        }
        Ok(Sources { equals, searched })
    }
}

/// The number of the last input before this one that is equal to it, if it is not bare. From then on the map knows this
/// one too.
fn equal_before<'a>(
    known: &mut HashMap<InputKey<'a>, usize>,
    inputs: &'a [BarInput],
    number: usize,
) -> Result<Option<usize>, AllocError>
    requires within { number < length inputs.now }
    requires known { KnowsInputs inputs.now number known.old }
    ensures source { IfOk result (IsSource inputs.now number) }
    ensures known { OnOk result (KnowsInputs inputs.now (number + 1) known.new) }
{
    let input = &inputs[number];
    if is_bare(input) {
        return Ok(None);
    }
    Ok(known.insert(InputKey { input }, number)?)
}

/// Whether the bar has neither an onset nor a pin.
fn is_bare(input: &BarInput) -> bool
    ensures { IsTrue result ↔ IsBare input.now }
{
    input.onsets().is_empty() && input.pin().is_none()
}
