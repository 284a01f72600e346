ghost use Rattle.least_rows.specs.Ways.{IsShort, nearer_way, way_then, IsPartSum};
ghost use Rattle.row_laws.specs.BestRules.{is_nearer};
ghost use Rattle.std.specs.Prelude.{◌≡◌, Some};

use rhythm_base::Carry;

/// The least way over the first parts of a cut, for one number of chords carried out of them.
#[derive(Clone, Copy)]
pub struct Way {
    pub cost: u64,
    /// What orders the rule lists of such ways: the ranks of the entries of the parts, as digits to the base 8.
    pub order: u64,
    /// The numbers of chords carried into the parts, as digits to the base 8.
    pub way: u64,
}

/// Ways by the number of chords carried out.
pub type Ways = [Option<Way>; 5];

impl Way {
    /// The way with one part more, into which `count` chords are carried, by its entry of this cost and rank.
    #[inline(always)]
    pub fn then(self, count: Carry, cost: u64, rank: u8) -> Way
        requires short { IsShort self }
        requires part { IsPartSum cost rank }
        ensures { result ≡ way_then self count cost rank }
    {
        Way {
            cost: self.cost + cost,
            order: self.order * 8 + u64::from(rank),
            way: self.way * 8 + u64::from(count.count()),
        }
    }
}

/// The first costs less than the second, or as much and its rule list comes before.
#[inline(always)]
fn is_nearer(x: &Way, y: &Way) -> bool
    ensures { result ≡ is_nearer (x.now.cost, x.now.order) (y.now.cost, y.now.order) }
{
    x.cost < y.cost || (x.cost == y.cost && x.order < y.order)
}

/// Puts a way into the place where it is nearer than what is there.
#[inline(always)]
pub fn offer_way(place: &mut Option<Way>, next: Way)
    ensures { place.new ≡ nearer_way place.old (Some next) }
{
    match place {
        Some(best) => {
            if is_nearer(&next, best) {
                *best = next;
            }
        }
        None => *place = Some(next),
    }
}
