// is_bis_up and is_bis_down of the source: what they read of a run of strokes, kept up stroke by stroke. Of no
// stroke both are false.
ghost use Rattle.std.specs.Prelude.{◌≡◌};
ghost use Rattle.zones.specs.BisUpDown.{goes};
ghost use Rattle.zones.specs.Code.GrowingRun.{begun, in_order_with, longer, more_of, is_run_of, up_of, down_of, spans_of, spans_way, goes_of};

use crate::Summary;
use machine::Direction;

// How many strokes a run has, as far as it is asked.
#[derive(Clone, Copy, Debug, PartialEq, Eq)]
pub enum StrokeCount {
    One,
    Even,
    OddFromThree,
}

impl StrokeCount {
    // With one stroke more.
    fn longer(self) -> Self
        ensures { result ≡ longer self }
    {
        match self {
            StrokeCount::Even => StrokeCount::OddFromThree,
            _ => StrokeCount::Even,
        }
    }
}

// `in_order` is whether the end times rise strictly.
// Kept: a flag, since it is the answer to one of the tests on a run, and no value stands beside it that an Option could hold.
// Kept: gg and dd one by one and no value of the two, as the definitions name them (specs/Code/GrowingRun).
#[derive(Clone, Copy)]
pub struct GrowingRun {
    pub first: Summary,
    pub last: Summary,
    pub count: StrokeCount,
    pub in_order: bool,
    pub gg: f64,
    pub dd: f64,
}

impl GrowingRun {
    // A run of one stroke.
    pub fn start(s: Summary) -> Self
        ensures { result ≡ begun s }
    {
        GrowingRun {
            first: s,
            last: s,
            count: StrokeCount::One,
            in_order: true,
            gg: arith::max(f64::NEG_INFINITY, s.high),
            dd: arith::min(f64::INFINITY, s.low),
        }
    }

    // Whether the end times rise, with s at the end.
    fn in_order_with(self, s: Summary) -> bool
        ensures { result ≡ in_order_with self s }
    {
        self.in_order && self.last.ended < s.ended
    }

    // The run with one stroke more.
    pub fn more(self, s: Summary) -> Self
        ensures { result ≡ more_of self s }
    {
        GrowingRun {
            last: s,
            count: self.count.longer(),
            in_order: self.in_order_with(s),
            gg: arith::max(self.gg, s.high),
            dd: arith::min(self.dd, s.low),
            ..self
        }
    }

    // An odd number of strokes, at least 3, in order.
    fn is_run(self) -> bool
        ensures { result ≡ is_run_of self }
    {
        self.count == StrokeCount::OddFromThree && self.in_order
    }

    // Whether `top` has the greatest high of all strokes, and `bottom` the least low.
    #[tactic(auto, unfolding(crate::specs::Code::GrowingRun::spans_of))]
    fn spans(self, top: Summary, bottom: Summary) -> bool
        ensures { result ≡ spans_of self top bottom }
    {
        top.high == self.gg && bottom.low == self.dd
    }

    // Whether the run spans all strokes from its first to its last, this way.
    #[tactic(auto, unfolding(crate::specs::Code::GrowingRun::spans_way))]
    fn spans_way(self, way: Direction) -> bool
        ensures { result ≡ spans_way way self }
    {
        match way {
            Direction::Up => self.spans(self.last, self.first),
            Direction::Down => self.spans(self.first, self.last),
        }
    }

    // Whether the run goes this way as a whole.
    // Kept: is_run is asked first and by itself. Tried as one expression of the three tests: its branches join, and the proof did not close.
    pub fn goes(self, way: Direction) -> bool
        ensures { result ≡ goes_of way self }
    {
        if !self.is_run() {
            return false;
        }
        self.last.direction == way && self.spans_way(way)
    }

    pub fn is_bis_up(self) -> bool
        ensures { result ≡ up_of self }
    {
        self.goes(Direction::Up)
    }

    pub fn is_bis_down(self) -> bool
        ensures { result ≡ down_of self }
    {
        self.goes(Direction::Down)
    }
}

// Whether strokes go this way as a whole, one after the other: is_bis_up or is_bis_down.
// Kept: a match of both arms, since `is_some_and` would put the closure of `fold` into another, around a pair.
pub fn goes(way: Direction, strokes: &[Summary]) -> bool
    ensures { result ≡ goes way strokes.now }
{
    match strokes.split_first() {
        None => false,
        Some((first, rest)) => rest
            .iter()
            .fold(GrowingRun::start(*first), |run, s| run.more(*s))
            .goes(way),
    }
}
