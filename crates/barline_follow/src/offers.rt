ghost use Rattle.barline_follow.specs.Bars as bars;
ghost use Rattle.barline_follow.specs.Offers as prices;
ghost use Rattle.barline_follow.specs.Offers.{AreFirstOffers};
ghost use Rattle.rhythm_base.specs.declared.limits.TheConstants.{HEAVIEST_ONSET};
ghost use Rattle.std.specs.Prelude.{◌≡◌, ◌≤◌, ◌<◌, ◌^◌, ◌++◌, List, [], ◌∷◌, IfOk, All, OnOk, filter, max};

use crate::barlines::whole_bar;
use crate::least::{Valued, keep};
use rhythm_base::{Grammar, Performance};
use std::alloc::{AllocError, Global};

/// A length that is offered for a bar, and its price.
#[derive(Clone, Copy, Debug, PartialEq, Eq)]
pub struct Offer {
    /// What is added to a list's value.
    pub price: u64,
    /// The length in ticks.
    pub ticks: u64,
}

impl Valued for Offer {
    ghost value = { λ o. o.price };

    ghost tick = { λ o. o.ticks };

    fn value(&self) -> u64 {
        self.price
    }

    fn tick(&self) -> u64 {
        self.ticks
    }
}

/// The length that a bar has in the tempo of the bar before, which has so many ticks. The first bar is a whole bar.
fn in_tempo(performance: &Performance, number: usize, before: u64) -> u64
    requires { before < 2 ^ 33 }
    ensures value { result ≡ prices.in_tempo performance.now number before }
    ensures short { result < 2 ^ 60 }
{
    if number == 0 {
        whole_bar(performance, 0)
    } else {
        whole_bar(performance, number) * before / whole_bar(performance, number - 1)
    }
}

/// The step by which a bar's length is varied.
fn bar_step(performance: &Performance, number: usize) -> u64
    ensures value { result ≡ bars.bar_step performance.now number }
    ensures short { result < 2 ^ 27 }
{
    (whole_bar(performance, number) / 96).max(1)
}

/// How many steps a bar's length is varied by.
fn reach(number: usize) -> u64
    ensures value { result ≡ prices.most_steps number }
    ensures few { result ≤ 12 }
{
    if number == 0 { 12 } else { 3 }
}

/// The lengths that are so many steps from a whole bar and from one in tempo, with their price.
fn proposed(weight: u64, whole: u64, tempo: u64, step: u64, steps: u64) -> [Offer; 4]
    requires light { weight ≤ HEAVIEST_ONSET }
    requires short { whole < 2 ^ 27 }
    requires short_tempo { tempo < 2 ^ 60 }
    requires short_step { step < 2 ^ 27 }
    requires few { steps ≤ 12 }
    ensures { result ≡ prices.proposed weight whole tempo step steps }
{
    let price = 6 * weight * (steps * steps);
    let shift = steps * step;
    let offer = |ticks: u64| Offer { price, ticks };
    [
        offer(whole.saturating_sub(shift)),
        offer(whole + shift),
        offer(tempo.saturating_sub(shift)),
        offer(tempo + shift),
    ]
}

/// The length is from a half to one and a half of a whole bar.
fn is_offered(whole: u64, offer: Offer) -> bool
    requires short { whole < 2 ^ 27 }
    requires short_offer { offer.ticks < 2 ^ 61 }
    ensures { result ≡ prices.is_offered whole offer }
{
    whole <= 2 * offer.ticks && 2 * offer.ticks <= 3 * whole
}

/// Keeps those of the proposals that are offered.
fn keep_offered(offers: &mut Vec<Offer>, whole: u64, proposals: &[Offer]) -> Result<(), AllocError>
    requires short { whole < 2 ^ 27 }
    requires short_offers { All (λ o. o.ticks < 2 ^ 61) proposals.now }
    requires kept { (xs : List Offer) × AreFirstOffers xs offers.old.items }
    ensures { (xs : List Offer) → AreFirstOffers xs offers.old.items
        → OnOk result (AreFirstOffers (xs ++ filter (prices.is_offered whole) proposals.now) offers.new.items) }
{
    'proposals: for proposal in proposals {
        if is_offered(whole, *proposal) {
            keep(offers, *proposal)?;
        }
    }
    Ok(())
}

/// What is offered for a bar after a bar of so many ticks, by price and then by length.
pub fn offers(
    alloc: Global,
    grammar: &Grammar,
    performance: &Performance,
    number: usize,
    before: u64,
) -> Result<Vec<Offer>, AllocError>
    requires early { grammar.now.early ≤ HEAVIEST_ONSET }
    requires late { grammar.now.late ≤ HEAVIEST_ONSET }
    requires before { before < 2 ^ 33 }
    ensures { IfOk result (λ v. prices.AreOffers grammar.now performance.now number before v.items) }
{
    let weight = u64::from(grammar.early.max(grammar.late));
    let whole = whole_bar(performance, number);
    let tempo = in_tempo(performance, number, before);
    let step = bar_step(performance, number);
    let mut offers = Vec::new(alloc);
    'steps: for steps in 0..reach(number) + 1 {
        let proposals = proposed(weight, whole, tempo, step, steps);
        keep_offered(&mut offers, whole, &proposals)?;
    }
    Ok(offers)
}
