ghost use Rattle.barline_follow.specs.Least.{AreFirstLeast, comes_before};
ghost use Rattle.rhythm_base.specs.Lists.{AreInOrder, list_with};
ghost use Rattle.std.specs.Cmp.Lexicographic.{slice_cmp};
ghost use Rattle.std.specs.List.{AllWithin};
ghost use Rattle.std.specs.Ordering.{is_lt, nat_cmp};
ghost use Rattle.std.specs.Prelude.{◌≡◌, ◌≢◌, ◌≤◌, ◌++◌, ℕ, List, [], ◌∷◌, Contains, OnOk, false, filter, length, nat_eq, not, true};

use std::alloc::AllocError;

/// What has a value, and stands at a tick.
pub trait Valued {
    ghost value: { Self → ℕ };

    ghost tick: { Self → ℕ };

    fn value(&self) -> u64
        ensures { result ≡ value self.now };

    fn tick(&self) -> u64
        ensures { result ≡ tick self.now };
}

/// It has a lower value, or the same value and a lower tick.
fn is_before<T: Valued>(one: &T, other: &T) -> bool
    ensures { result ≡ is_lt (slice_cmp nat_cmp (T.value one.now ∷ T.tick one.now ∷ []) (T.value other.now ∷ T.tick other.now ∷ [])) }
{
    (one.value(), one.tick()) < (other.value(), other.tick())
}

/// How many of a list stand before an item.
fn count_before<T: Valued>(list: &[T], item: &T) -> usize
    requires { AreInOrder (λ x. T.value x ∷ T.tick x ∷ []) list.now }
    ensures within { result ≤ length list.now }
    ensures front { AllWithin (λ x. comes_before T.value T.tick x item.now ≡ true) list.now 0 result }
    ensures back { AllWithin (λ x. comes_before T.value T.tick x item.now ≡ false) list.now result (length list.now) }
{
    list.partition_point(|other| is_before(other, item))
}

/// Puts one more into a list, at its place.
fn put<T: Valued + Drop>(list: &mut Vec<T>, item: T) -> Result<(), AllocError>
    requires { AreInOrder (λ x. T.value x ∷ T.tick x ∷ []) list.old.items }
    ensures { OnOk result (list.new.items ≡ list_with (λ x. T.value x ∷ T.tick x ∷ []) item list.old.items) }
{
    let place = count_before(list.as_slice(), &item);
    list.insert(place, item)?;
    Ok(())
}

/// One at the tick has at most this value.
pub fn has_as_low<T: Valued>(list: &[T], tick: u64, value: u64) -> bool
    ensures yes { result ≡ true → (x : T) × Contains list.now x × (T.tick x ≡ tick) × (T.value x ≤ value) }
    ensures no { result ≡ false → (x : T) → Contains list.now x → T.tick x ≡ tick → T.value x ≤ value → ⊥ }
{
    'others: for other in list {
        if other.tick() == tick && other.value() <= value {
            return true;
        }
    }
    false
}

/// Takes out what stands at the tick.
fn clear_tick<T: Valued + Drop>(list: &mut Vec<T>, tick: u64)
    ensures { list.new.items ≡ filter (λ x. not (nat_eq (T.tick x) tick)) list.old.items }
{
    list.retain(|other| other.tick() != tick);
}

/// Takes one more into the list of the first of least value at each tick.
pub fn keep<T: Valued + Drop>(kept: &mut Vec<T>, item: T) -> Result<(), AllocError>
    requires { (xs : List T) × AreFirstLeast T.value T.tick xs kept.old.items }
    ensures { (xs : List T) → AreFirstLeast T.value T.tick xs kept.old.items
        → OnOk result (AreFirstLeast T.value T.tick (xs ++ item ∷ []) kept.new.items) }
{
    if has_as_low(kept.as_slice(), item.tick(), item.value()) {
        return Ok(());
    }
    clear_tick(kept, item.tick());
    put(kept, item)
}
