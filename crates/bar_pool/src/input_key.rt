ghost use Rattle.bar_pool.specs.Equal as equal;
ghost use Rattle.bar_pool.specs.EqualLaws.{inputs_equiv, writes_alike};
ghost use Rattle.bar_pool.specs.Equal.{input_writes, same_input, same_shape};
ghost use Rattle.std.specs.Cmp.{on_equiv, partial_equiv_from_equiv};
ghost use Rattle.std.specs.Option.{option_eq};
ghost use Rattle.std.specs.Prelude.{◌≡◌, ◌↔◌, IsTrue, option_map};

use rhythm_base::{BarInput, Shape};
use std::hash::{Hash, Hasher};

/// An input as the key of a map.
#[derive(Clone, Copy)]
pub struct InputKey<'a> {
    pub input: &'a BarInput,
}

impl<'a> PartialEq for InputKey<'a> {
    ghost eq = { λ a b. same_input a.input.now b.input.now };

    ghost laws = { partial_equiv_from_equiv (on_equiv (λ a. a.input.now) inputs_equiv) };

    fn eq(&self, other: &InputKey<'a>) -> bool {
        let one = self.input;
        let two = other.input;
        one.start() == two.start()
            && one.resolution() == two.resolution()
            && one.num() == two.num()
            && one.den() == two.den()
            && one.length() == two.length()
            && one.before() == two.before()
            && one.onsets() == two.onsets()
            && have_same_pin(one.pin(), two.pin())
    }
}

impl<'a> Eq for InputKey<'a> {
    ghost laws = { on_equiv (λ a. a.input.now) inputs_equiv };
}

impl<'a> Hash for InputKey<'a> {
    ghost hash_input = { λ a. input_writes a.input.now };

    ghost respects_eq = { λ a b same. writes_alike a.input.now b.input.now same };

    fn hash<H: Hasher>(&self, state: &mut H) {
        state.write_u64(digest(self.input));
    }
}

/// A number mixed into those before it. The factor is the golden ratio's part of 2 to the power 64.
fn mixed(sum: u64, number: u64) -> u64
    ensures { result ≡ equal.mixed sum number }
{
    sum.wrapping_mul(0x9e37_79b9_7f4a_7c15).wrapping_add(number)
}

/// Whether two inputs are equal.
pub fn are_equal(one: &BarInput, other: &BarInput) -> bool
    ensures { IsTrue result ↔ (one.now ≡ other.now) }
{
    InputKey { input: one } == InputKey { input: other }
}

/// One number of an input: of equal inputs the same one. A hasher is handed no others.
pub fn digest(input: &BarInput) -> u64
    ensures { result ≡ equal.digest input.now }
{
    let head = mixed(
        mixed(u64::from(input.start()), input.length()),
        input.before(),
    );
    input.onsets().iter().fold(head, |sum, chord| {
        mixed(mixed(sum, chord.onset), chord.end)
    })
}

/// Whether both have no pin, or equal ones.
fn have_same_pin(one: Option<&Shape>, two: Option<&Shape>) -> bool
    ensures { result ≡ option_eq same_shape (option_map (λ s. s.now) one.entry) (option_map (λ s. s.now) two.entry) }
{
    match one {
        None => two.is_none(),
        Some(shape) => match two {
            None => false,
            Some(other) => shape.same(other),
        },
    }
}
