// The zone under construction, by value: what get_zs_seq and ZS::new of the source read of its
// strokes, kept up as each stroke joins.
ghost use Rattle.std.specs.Prelude.{◌≡◌, ◌&&◌};
ghost use Rattle.zones.specs.Zones.{within, meets_range};
ghost use Rattle.zones.specs.Code.GrowingZone.{started, joined_early, joined_later, joined_of, opens_of, zz_of, meets_if, first_meet, valid_of};

use crate::Summary;
use machine::Direction;

// zg and zd are of the first three strokes, so they stand still after the third; is_valid asks all strokes against them. So the first three are kept, and each
// later one is asked as it joins: `later` is whether all of those met the range.
// Kept: two Options for the second and the third. With an enum of one, two or three strokes the test of each (first_meet) would be written out six times.
// Kept: the edges one by one and not as pairs of a type of their own, as the definitions name them (specs/Code/GrowingZone).
// Kept: `later` is a flag, since it is the answer to one of is_valid's tests, and no value stands beside it that an Option could hold.
#[derive(Clone, Copy)]
pub struct GrowingZone {
    pub first: Summary,
    pub second: Option<Summary>,
    pub third: Option<Summary>,
    pub last: Summary,
    pub zg: f64,
    pub zd: f64,
    pub gg: f64,
    pub dd: f64,
    pub later: bool,
}

// From d to g, both counted.
// Kept: spelled out as the definition has it, the upper edge first; `contains` of a range says no more and asks the lower one first.
#[tactic(auto, unfolding(crate::specs::Zones::within))]
fn within(g: f64, d: f64, x: f64) -> bool
    ensures { result ≡ within g d x }
{
    x <= g && d <= x
}

// The stroke has an edge from zd to zg, or spans both.
#[tactic(auto, unfolding(crate::specs::Zones::meets_range))]
fn meets_range(g: f64, d: f64, s: Summary) -> bool
    ensures { result ≡ meets_range g d s }
{
    within(g, d, s.high) || within(g, d, s.low) || g <= s.high && s.low <= d
}

impl GrowingZone {
    // A zone of one stroke. The edges are folds from an infinity.
    pub fn start(s: Summary) -> Self
        ensures { result ≡ started s }
    {
        let top = f64::INFINITY;
        let bottom = f64::NEG_INFINITY;
        GrowingZone {
            first: s,
            second: None,
            third: None,
            last: s,
            zg: arith::min(top, s.high),
            zd: arith::max(bottom, s.low),
            gg: arith::max(bottom, s.high),
            dd: arith::min(top, s.low),
            later: true,
        }
    }

    // With s as the second stroke or the third.
    fn joined_early(self, second: Option<Summary>, third: Option<Summary>, s: Summary) -> Self
        ensures { result ≡ joined_early self second third s }
    {
        GrowingZone {
            second,
            third,
            last: s,
            zg: arith::min(self.zg, s.high),
            zd: arith::max(self.zd, s.low),
            gg: arith::max(self.gg, s.high),
            dd: arith::min(self.dd, s.low),
            ..self
        }
    }

    // Whether each stroke after the third meets the range, s too.
    fn later_with(self, s: Summary) -> bool
        ensures { result ≡ (self.later && meets_range self.zg self.zd s) }
    {
        self.later && meets_range(self.zg, self.zd, s)
    }

    // With a fourth stroke, or one after it.
    fn joined_later(self, s: Summary) -> Self
        ensures { result ≡ joined_later self s }
    {
        GrowingZone {
            last: s,
            gg: arith::max(self.gg, s.high),
            dd: arith::min(self.dd, s.low),
            later: self.later_with(s),
            ..self
        }
    }

    // The zone with one stroke more.
    pub fn joined(self, s: Summary) -> Self
        ensures { result ≡ joined_of self s }
    {
        match (self.second, self.third) {
            (None, _) => self.joined_early(Some(s), None, s),
            (Some(_), None) => self.joined_early(self.second, Some(s), s),
            (Some(_), Some(_)) => self.joined_later(s),
        }
    }

    // Whether the stroke opens a new zone: it goes up and stays below zd, or down and above zg.
    #[tactic(auto, unfolding(crate::specs::Code::GrowingZone::opens_of, crate::specs::Code::GrowingZone::outside_of))]
    pub fn opens(self, s: Summary) -> bool
        ensures { result ≡ opens_of self s }
    {
        match s.direction {
            Direction::Up => s.high < self.zd,
            Direction::Down => self.zg < s.low,
        }
    }

    pub fn zz(self) -> f64
        ensures { result ≡ zz_of self }
    {
        self.zd + (self.zg - self.zd) * 0.5
    }

    // A stroke that is not there is not asked.
    #[tactic(auto, unfolding(crate::specs::Code::GrowingZone::meets_if))]
    fn meets(self, s: Option<Summary>) -> bool
        ensures { result ≡ meets_if self.zg self.zd s }
    {
        s.is_none_or(|s| meets_range(self.zg, self.zd, s))
    }

    #[tactic(auto, unfolding(crate::specs::Code::GrowingZone::first_meet))]
    fn first_meet(self) -> bool
        ensures { result ≡ first_meet self }
    {
        meets_range(self.zg, self.zd, self.first)
            && self.meets(self.second)
            && self.meets(self.third)
    }

    // is_valid of the source.
    #[tactic(auto, unfolding(crate::specs::Code::GrowingZone::valid_of))]
    pub fn is_valid(self) -> bool
        ensures { result ≡ valid_of self }
    {
        !(self.zg < self.zd) && self.first_meet() && self.later
    }
}
