// check_fx of the source: three neighbouring merged bars are a top, a bottom or neither.
ghost use Rattle.std.specs.Prelude.{◌≡◌, []};
ghost use Rattle.machine.specs.Fractals.{beyond};
ghost use Rattle.check_bi.specs.Code.Scan.{candle_of, fx_at, value_of, top_of, bottom_of, fractal_of, mark_if, mark_of, taken_of};

use bars::Bar;
use machine::Mark;

// Of a merged bar, what fractals and strokes are found by.
#[derive(Clone, Copy)]
pub struct Candle {
    pub time: i64,
    pub high: f64,
    pub low: f64,
}

impl Candle {
    // Of a bar.
    #[tactic(auto, unfolding(crate::specs::Code::Scan::candle_of))]
    pub fn of(bar: Bar) -> Candle
        ensures { result ≡ candle_of (record { bar = bar; elements = [] }) }
    {
        Candle {
            time: bar.time,
            high: bar.high,
            low: bar.low,
        }
    }
}

// FX of the source, without its bars: the place of the first of them, and the middle one's time, high and low.
// Kept: time, high and low as its own: with a Candle in it value, holds, is_candidate and asking's last_with would each read through it, and fx_at alone
// would be shorter.
#[derive(Clone, Copy)]
pub struct Fx {
    pub place: usize,
    pub mark: Mark,
    pub time: i64,
    pub high: f64,
    pub low: f64,
}

impl Fx {
    // fx: a top's high, a bottom's low.
    #[tactic(auto, unfolding(crate::specs::Code::Scan::value_of, crate::specs::Code::Scan::value_in))]
    pub fn value(self) -> f64
        ensures { result ≡ value_of self }
    {
        match self.mark {
            Mark::D => self.low,
            Mark::G => self.high,
        }
    }
}

// a is strictly beyond b: higher for tops, lower for bottoms.
pub fn is_beyond(m: Mark, a: f64, b: f64) -> bool
    ensures { result ≡ beyond m a b }
{
    match m {
        Mark::D => a < b,
        Mark::G => b < a,
    }
}

// The middle bar's high and low are strictly above those of both others.
// Kept: three bars as three parameters, here and below, as check_fx of the source and the definitions (top_of a b c) have them: one value of the three
// would be put together at each call and taken apart in each contract.
#[tactic(auto, unfolding(crate::specs::Code::Scan::top_of))]
pub fn is_top(a: Candle, b: Candle, c: Candle) -> bool
    ensures { result ≡ top_of a b c }
{
    a.high < b.high && c.high < b.high && a.low < b.low && c.low < b.low
}

// They are strictly below those of both others.
#[tactic(auto, unfolding(crate::specs::Code::Scan::bottom_of))]
pub fn is_bottom(a: Candle, b: Candle, c: Candle) -> bool
    ensures { result ≡ bottom_of a b c }
{
    b.low < a.low && b.low < c.low && b.high < a.high && b.high < c.high
}

// Whether they are a top or a bottom.
#[tactic(auto, unfolding(crate::specs::Code::Scan::fractal_of))]
pub fn is_fractal(a: Candle, b: Candle, c: Candle) -> bool
    ensures { result ≡ fractal_of a b c }
{
    is_top(a, b, c) || is_bottom(a, b, c)
}

// The mark, where they are a fractal.
// Kept: beside mark_of, for callers that know that they are one: of an Option these would have to say what None is.
#[tactic(auto, unfolding(crate::specs::Code::Scan::mark_if))]
pub fn fractal_mark(a: Candle, b: Candle, c: Candle) -> Mark
    ensures { result ≡ mark_if (top_of a b c) }
{
    if is_top(a, b, c) { Mark::G } else { Mark::D }
}

// The mark of the fractal that they form, if they form one.
#[tactic(auto, unfolding(crate::specs::Code::Scan::mark_of, crate::specs::Code::Scan::mark_by))]
pub fn mark_of(a: Candle, b: Candle, c: Candle) -> Option<Mark>
    ensures { result ≡ mark_of a b c }
{
    if is_top(a, b, c) {
        return Some(Mark::G);
    }
    if is_bottom(a, b, c) {
        return Some(Mark::D);
    }
    None
}

// Whether a scan takes them: any fractal where it has taken none, or else one of the other mark than that of the last one taken.
// Kept: no mark_of whose mark is then compared: behind a taken fractal that would ask for both marks where one can be taken, of every window.
#[tactic(auto, unfolding(crate::specs::Code::Scan::taken_of, crate::specs::Code::Scan::other_of))]
pub fn is_taken(last: Option<Mark>, a: Candle, b: Candle, c: Candle) -> bool
    ensures { result ≡ taken_of last a b c }
{
    match last {
        None => is_fractal(a, b, c),
        Some(Mark::D) => is_top(a, b, c),
        Some(Mark::G) => is_bottom(a, b, c),
    }
}

#[tactic(auto, unfolding(crate::specs::Code::Scan::fx_at))]
pub fn fx_at(i: usize, m: Mark, b: Candle) -> Fx
    ensures { result ≡ fx_at i m b }
{
    Fx {
        place: i,
        mark: m,
        time: b.time,
        high: b.high,
        low: b.low,
    }
}
