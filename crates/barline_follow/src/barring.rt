ghost use Rattle.barline_follow.specs.Barring.{better, barring_end, last_length, course_end, course_value, barring_value};
ghost use Rattle.rhythm_base.specs.Lists.{last_end};
ghost use Rattle.std.specs.Prelude.{◌≡◌, ◌+◌, ◌<◌, ◌^◌, List};

use crate::barlines::last_barline;
use crate::heads::Heads;
use crate::least::Valued;
use std::marker::Model;

/// Barlines, the sum of the prices of their bars, and what their trees cost. The first barline stands at 0.
#[derive(Drop)]
pub struct Barring {
    ticks: Vec<u64>,
    prices: u64,
    cost: u64,
}

impl Model for Barring {
    ghost use Rattle.barline_follow.specs.Barring.{Barring};
    ghost use Rattle.std.specs.Prelude.{◌+◌, ◌<◌, ◌^◌};

    ghost Value = { Barring };

    ghost view = { λ b. record { ticks = b.ticks.items; prices = b.prices; cost = b.cost } };

    ghost use Rattle.rhythm_base.specs.Lists.{last_end};

    ghost invariant = { λ b. (b.cost + b.prices < 2 ^ 64) × (last_end 0 b.ticks.items < 2 ^ 33) };
}

impl Barring {
    /// These barlines, with the sum of their prices and the cost of their trees.
    pub fn of(ticks: Vec<u64>, prices: u64, cost: u64) -> Barring
        requires value { cost + prices < 2 ^ 64 }
        requires end { last_end 0 ticks.items < 2 ^ 33 }
        ensures { result ≡ record { ticks = ticks.items; prices = prices; cost = cost } }
    {
        Barring {
            ticks,
            prices,
            cost,
        }
    }

    /// The barlines.
    pub fn ticks(&self) -> &[u64]
        ensures { result.now ≡ self.now.ticks }
    {
        self.ticks.as_slice()
    }

    /// The sum of the prices of the bars.
    pub fn prices(&self) -> u64
        ensures { result ≡ self.now.prices }
    {
        self.prices
    }

    /// What the trees cost.
    pub fn cost(&self) -> u64
        ensures { result ≡ self.now.cost }
    {
        self.cost
    }

    /// What the trees cost and the prices together.
    pub fn value(&self) -> u64
        ensures { result ≡ barring_value self.now }
    {
        self.cost + self.prices
    }

    /// The length of the last bar, 0 where there is none.
    pub fn last_length(&self) -> u64
        ensures value { result ≡ last_length self.now.ticks }
        ensures short { result < 2 ^ 33 }
    {
        let ticks = self.ticks.as_slice();
        let count = ticks.len();
        if count < 2 {
            return 0;
        }
        ticks[count - 1].saturating_sub(ticks[count - 2])
    }

    /// The last barline.
    pub fn end(&self) -> u64
        ensures value { result ≡ barring_end self.now }
        ensures early { result < 2 ^ 33 }
    {
        last_barline(self.ticks.as_slice())
    }
}

/// The better of two, the first where they have the same value.
pub fn better(best: Option<Barring>, barring: Barring) -> Option<Barring>
    ensures { result ≡ better best barring }
{
    match best {
        Some(first) if first.value() <= barring.value() => Some(first),
        _ => Some(barring),
    }
}

/// Barlines that go on, with the least costs of each voice up to there.
#[derive(Drop)]
pub struct Course {
    barring: Barring,
    heads: Vec<Heads>,
}

impl Model for Course {
    ghost use Rattle.barline_follow.specs.Barring.{Course};

    ghost Value = { Course };

    ghost view = { λ t. record { barring = t.barring; heads = t.heads.items } };
}

impl Course {
    /// These barlines, with these costs of the voices.
    pub fn of(barring: Barring, heads: Vec<Heads>) -> Course
        ensures { result ≡ record { barring = barring; heads = heads.items } }
    {
        Course { barring, heads }
    }

    /// The barlines and what they cost.
    pub fn barring(&self) -> &Barring
        ensures { result.now ≡ self.now.barring }
    {
        &self.barring
    }

    /// The costs of each voice.
    pub fn heads(&self) -> &[Heads]
        ensures { result.now ≡ self.now.heads }
    {
        self.heads.as_slice()
    }
}

impl Valued for Course {
    ghost value = { course_value };

    ghost tick = { course_end };

    fn value(&self) -> u64 {
        self.barring.value()
    }

    fn tick(&self) -> u64 {
        self.barring.end()
    }
}
