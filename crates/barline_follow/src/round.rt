ghost use Rattle.barline_follow.specs.Barring.{Barring, barring_value, course_value, is_below};
ghost use Rattle.barline_follow.specs.Gathered.{AreAmong, AreFew, GathersOne, HasGathered, IsFrontOf, IsGathered};
ghost use Rattle.barline_follow.specs.PassedOver.{RulesOut};
ghost use Rattle.std.specs.Prelude.{◌≡◌, ◌<◌, ◌≤◌, [], All, Some, filter, length, take, true};

use crate::barring::{Barring, Course, better};
use crate::least::{Valued, has_as_low, keep};
use std::alloc::{AllocError, Global};
use std::marker::Model;

/// How many lists go on to the next round.
const MOST_KEPT: usize = 24;

/// What a longer list comes to: it has no trees, it goes on, or it is whole.
#[derive(Drop)]
pub enum Outcome {
    Lost,
    Going(Course),
    Whole(Barring),
}

/// A round as far as its longer lists are gathered.
#[derive(Drop)]
pub struct Round {
    kept: Vec<Course>,
    best: Option<Barring>,
}

impl Model for Round {
    ghost use Rattle.barline_follow.specs.Gathered.{Round};

    ghost Value = { Round };

    ghost view = { λ r. record { kept = r.kept.items; best = r.best } };
}

/// Takes out what is not below the best.
fn clear_above(kept: &mut Vec<Course>, best: &Option<Barring>)
    ensures { kept.new.items ≡ filter (λ t. is_below best.now t.barring) kept.old.items }
{
    if let Some(best) = best {
        let most = best.value();
        kept.retain(|course| course.value() < most);
    }
}

/// The best is of no more than the value.
fn is_best_within(best: &Option<Barring>, low: u64) -> bool
    ensures { result ≡ true → (b : Barring) × (best.now ≡ Some b) × (barring_value b ≤ low) }
{
    match best {
        None => false,
        Some(best) => best.value() <= low,
    }
}

/// As many are kept as may be, and all of them are below the value.
fn are_all_below(kept: &[Course], low: u64) -> bool
    ensures { result ≡ true → (length kept.now ≡ 24) × All (λ k. course_value k < low) kept.now }
{
    if kept.len() != MOST_KEPT {
        return false;
    }
    'kept: for course in kept {
        if course.value() >= low {
            return false;
        }
    }
    true
}

impl Round {
    /// A round with no list yet, where there may be a best from the rounds before.
    pub fn begin(alloc: Global, best: Option<Barring>) -> Round
        ensures { IsGathered best [] [] result }
    {
        Round {
            kept: Vec::new(alloc),
            best,
        }
    }

    /// Gathers one more list.
    pub fn add(&mut self, outcome: Outcome) -> Result<(), AllocError>
        requires { HasGathered self.old }
        ensures { GathersOne self.old outcome result self.new }
    {
        match outcome {
            Outcome::Lost => Ok(()),
            Outcome::Going(course) => {
                keep(&mut self.kept, course)?;
                self.kept.truncate(MOST_KEPT);
                Ok(())
            }
            Outcome::Whole(barring) => {
                self.best = better(self.best.take(), barring);
                Ok(())
            }
        }
    }

    /// Whether a longer list that ends at the tick changes nothing, whatever it comes to that is at least this value.
    pub fn rules_out(&self, is_closed: bool, tick: u64, low: u64) -> bool
        ensures { result ≡ true → RulesOut is_closed tick low self.now }
    {
        if is_closed {
            return is_best_within(&self.best, low);
        }
        let kept = self.kept.as_slice();
        has_as_low(kept, tick, low) || are_all_below(kept, low)
    }

    /// The next front and the best.
    pub fn close(self) -> (Vec<Course>, Option<Barring>)
        ensures best { result.1 ≡ self.best }
        ensures front { IsFrontOf self result.0.items }
        ensures among { AreAmong self result.0.items }
        ensures few { AreFew self result.0.items }
    {
        let Round { mut kept, best } = self;
        clear_above(&mut kept, &best);
        (kept, best)
    }
}
