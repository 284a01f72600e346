ghost use Rattle.barline_follow.specs.Longer.{all_longer, untried};
ghost use Rattle.std.specs.Prelude.{◌≡◌, ◌++◌, ◌∷◌, [], true, IfOk, OnOk, length, map};

use crate::barring::Course;
use crate::offers::Offer;
use least_cost::BarCosts;
use std::alloc::{AllocError, Global};
use std::marker::Model;

/// A list of the front with a bar more, as far as it is known what this bar costs.
#[derive(Drop)]
pub struct Longer<'a> {
    course: &'a Course,
    offer: Offer,
    /// What the bar costs in the first voices.
    costs: Vec<BarCosts>,
    /// It is passed over, since it changes nothing.
    is_out: bool,
}

impl<'a> Model for Longer<'a> {
    ghost use Rattle.barline_follow.specs.Longer.{Longer};

    ghost Value = { Longer };

    ghost view = { λ l. record { course = l.course.now; offer = l.offer; costs = l.costs.items; is_out = l.is_out } };
}

impl<'a> Longer<'a> {
    /// A list with a bar of which no cost is known.
    pub fn new(alloc: Global, course: &'a Course, offer: Offer) -> Longer<'a>
        ensures { result ≡ untried course.entry.now offer }
    {
        Longer {
            course,
            offer,
            costs: Vec::new(alloc),
            is_out: false,
        }
    }

    /// The list of the front.
    pub fn course(&self) -> &Course
        ensures { result.now ≡ self.now.course }
    {
        self.course
    }

    /// The bar that is tried.
    pub fn offer(&self) -> Offer
        ensures { result ≡ self.now.offer }
    {
        self.offer
    }

    /// What the bar costs in the first voices.
    pub fn costs(&self) -> &[BarCosts]
        ensures { result.now ≡ self.now.costs }
    {
        self.costs.as_slice()
    }

    /// Whether it is passed over.
    pub fn is_out(&self) -> bool
        ensures { result ≡ self.now.is_out }
    {
        self.is_out
    }

    /// Passes it over.
    pub fn leave_out(&mut self)
        ensures { self.new ≡ record { course = self.old.course; offer = self.old.offer; costs = self.old.costs; is_out = true } }
    {
        self.is_out = true;
    }

    /// Learns what its bar costs in the next voice.
    pub fn learn(&mut self, costs: BarCosts) -> Result<(), AllocError>
        ensures { OnOk result (self.new ≡ record {
          course = self.old.course;
          offer = self.old.offer;
          costs = self.old.costs ++ costs ∷ [];
          is_out = self.old.is_out;
        }) }
    {
        self.costs.push(costs)?;
        Ok(())
    }
}

/// Appends a list with each bar that is tried of it.
fn push_longer<'a>(
    alloc: Global,
    course: &'a Course,
    tried: &[Offer],
    lists: &mut Vec<Longer<'a>>,
) -> Result<(), AllocError>
    ensures { OnOk result (lists.new.items ≡ lists.old.items ++ map (untried course.entry.now) tried.now) }
{
    'offers: for offer in tried {
        lists.push(Longer::new(alloc, course, *offer))?;
    }
    Ok(())
}

/// Each list of the front with each bar that is tried of it.
pub fn longer_lists<'a>(
    alloc: Global,
    front: &'a [Course],
    tried: &[Vec<Offer>],
) -> Result<Vec<Longer<'a>>, AllocError>
    requires { length front.now ≡ length tried.now }
    ensures { IfOk result (λ v. v.items ≡ all_longer front.entry.now (map (λ own. own.items) tried.now)) }
{
    let mut lists = Vec::new(alloc);
    'lists: for place in 0..front.len().min(tried.len()) {
        let own = tried[place].as_slice();
        push_longer(alloc, &front[place], own, &mut lists)?;
    }
    Ok(lists)
}
