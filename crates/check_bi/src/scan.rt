// The search for a stroke in one pass over the unfinished bars: what a scan has seen, and what check_bi makes of it.
ghost use Rattle.std.specs.Prelude.{◌≡◌, ◌<◌, IfSome};
ghost use Rattle.check_bi.specs.Code.Scan.{candidate_of, cut_with, closes_of, grown, best_with, put_of, opened_of, take_on, Small, SmallIf, EndFits, holds_of, found_of};

use crate::check_fx::{Fx, is_beyond};
use machine::Mark;

// The best candidate so far, and how many fractals the stroke to it has.
#[derive(Clone, Copy)]
pub struct Best {
    pub end: Fx,
    pub upto: usize,
}

// What has been seen since the first fractal: how many fractals were taken, the last one's mark, the first one, the
// one that the first stroke's cut would begin on, and the best candidate, if there is one.
#[derive(Clone, Copy)]
pub struct Scan {
    pub count: usize,
    pub last: Mark,
    pub start: Fx,
    pub cut: Fx,
    pub best: Option<Best>,
}

// A stroke that check_bi finds, by place: its ends and how many merged bars and fractals it has.
#[derive(Clone, Copy)]
pub struct FoundBi {
    pub start: Fx,
    pub end: Fx,
    pub bars: usize,
    pub fractals: usize,
}

// Whether f can end a stroke from s.
#[tactic(auto, using(crate::proofs::Marks::same_is), unfolding(crate::specs::Code::Scan::candidate_of))]
fn is_candidate(s: Fx, f: Fx) -> bool
    ensures { result ≡ candidate_of s f }
{
    s.mark != f.mark && s.time < f.time && is_beyond(f.mark, f.value(), s.value())
}

// The one to cut on: the most extreme of the first one's mark, the last if tied.
#[tactic(auto, using(crate::proofs::Marks::same_is), unfolding(crate::specs::Code::Scan::cut_with, machine::specs::Strokes::best_if))]
fn cut_with(a: Fx, f: Fx) -> Fx
    ensures { result ≡ cut_with a f }
{
    if a.mark == f.mark && !is_beyond(a.mark, a.value(), f.value()) {
        return f;
    }
    a
}

impl Best {
    // With one more fractal, at place i, that does not become the end: it counts where it is centred on a bar of the stroke.
    #[tactic(auto, unfolding(crate::specs::Code::Scan::grown, crate::specs::Code::Scan::upto_if))]
    fn grown(self, i: usize) -> Best
        requires { (self.end.place < 4294967296) × (self.upto < 4294967296) }
        ensures { result ≡ grown self i }
    {
        if i <= self.end.place + 1 {
            return Best {
                upto: self.upto + 1,
                ..self
            };
        }
        self
    }
}

impl Scan {
    // Whether f becomes the end.
    #[tactic(auto, unfolding(crate::specs::Code::Scan::closes_of, crate::specs::Code::Scan::closes_if))]
    fn closes(self, f: Fx) -> bool
        ensures { result ≡ closes_of self f }
    {
        if !is_candidate(self.start, f) {
            return false;
        }
        self.best
            .is_none_or(|b| is_beyond(f.mark, f.value(), b.end.value()))
    }

    // The best candidate once f is taken.
    #[tactic(auto, unfolding(crate::specs::Code::Scan::best_with, crate::specs::Code::Scan::best_if_new))]
    fn best_with(self, f: Fx) -> Option<Best>
        requires { Small self f.place }
        ensures { result ≡ best_with self f }
    {
        if self.closes(f) {
            return Some(Best {
                end: f,
                upto: self.count + 1,
            });
        }
        self.best.map(|b| b.grown(f.place))
    }

    // A fractal after the first is taken.
    #[tactic(auto, unfolding(crate::specs::Code::Scan::put_of))]
    fn put(self, f: Fx) -> Scan
        requires { Small self f.place }
        ensures { result ≡ put_of self f }
    {
        Scan {
            count: self.count + 1,
            last: f.mark,
            start: self.start,
            cut: cut_with(self.cut, f),
            best: self.best_with(f),
        }
    }
}

// The first fractal is taken.
#[tactic(auto, unfolding(crate::specs::Code::Scan::opened_of))]
fn opened(f: Fx) -> Scan
    ensures { result ≡ opened_of f }
{
    Scan {
        count: 1,
        last: f.mark,
        start: f,
        cut: f,
        best: None,
    }
}

// A fractal is taken.
#[tactic(auto, unfolding(crate::specs::Code::Scan::take_on))]
pub fn take(seen: Option<Scan>, f: Fx) -> Scan
    requires { SmallIf seen f.place }
    ensures { result ≡ take_on seen f }
{
    match seen {
        None => opened(f),
        Some(s) => s.put(f),
    }
}

// One range strictly holds the other's on both sides.
#[tactic(auto, unfolding(crate::specs::Code::Scan::holds_of))]
fn holds(a: Fx, b: Fx) -> bool
    ensures { result ≡ holds_of a b }
{
    b.high < a.high && a.low < b.low || a.high < b.high && b.low < a.low
}

// What check_bi makes of a scan.
#[tactic(auto, unfolding(crate::specs::Code::Scan::found_of, crate::specs::Code::Scan::found_by, crate::specs::Code::Scan::found_if, crate::specs::Code::Scan::bars_to))]
pub fn found_bi(s: Scan, minimum: usize) -> Option<FoundBi>
    requires { IfSome s.best (EndFits s.start.place) }
    ensures { result ≡ found_of minimum s }
{
    let Best { end, upto } = s.best?;
    let bars = end.place + 3 - s.start.place;
    if bars < minimum || holds(s.start, end) {
        return None;
    }
    Some(FoundBi {
        start: s.start,
        end,
        bars,
        fractals: upto,
    })
}
