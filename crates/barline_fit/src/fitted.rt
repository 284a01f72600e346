ghost use Rattle.barline_fit.specs.declared.fitted.Fitted.{Fitted};
ghost use Rattle.std.specs.Prelude.{◌≡◌, ◌≤◌, ◌<◌, None, Some};

/// The best tick for a barline.
#[derive(Clone, Copy, Debug, PartialEq, Eq)]
pub struct Fitted {
    /// The tick.
    pub tick: u64,
    /// What the least derivations of all voices cost together with the barline there.
    pub cost: u64,
}

/// The better of the best so far and a later tick: that of less cost, and at equal cost the earlier one.
pub(crate) fn better(best: Option<Fitted>, later: Fitted) -> Fitted
    ensures first { best ≡ None → result ≡ later }
    ensures kept { (x : Fitted) → best ≡ Some x → x.cost ≤ later.cost → result ≡ x }
    ensures cheaper { (x : Fitted) → best ≡ Some x → later.cost < x.cost → result ≡ later }
{
    match best {
        Some(kept) if kept.cost <= later.cost => kept,
        _ => later,
    }
}
