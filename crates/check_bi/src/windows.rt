// The windows of the view, three neighbouring bars each, and the scan over them.
ghost use Rattle.std.specs.Prelude.{◌≡◌, [], ◌+◌, ◌-◌, ◌≤◌, ◌<◌, length, get_or, drop, pos};
ghost use Rattle.check_bi.specs.Code.Scan.{scan_of, ScanFits, found_from, FoundFits};
ghost use Rattle.check_bi.specs.Code.View.{candle_from, times_in, rows_in, bars_in, places};
ghost use Rattle.check_bi.specs.Code.Windows.{row_at, taken_at, fx_in, NextWindow, NextIn, NoFractals};

use crate::check_fx::{Candle, Fx, fractal_mark, fx_at, is_taken};
use crate::scan::{FoundBi, Scan, found_bi, take};
use crate::view::View;
use machine::Mark;

// Of a bar's time and its row of prices.
#[tactic(auto, unfolding(crate::specs::Code::View::candle_from))]
fn candle_from(time: i64, row: [f64; 6]) -> Candle
    ensures { result ≡ candle_from time row }
{
    let [_, _, high, low, _, _] = row;
    Candle { time, high, low }
}

// The high and low of row i, as a candle without its time.
// Kept: with 0 for the time, which is_top and is_bottom do not ask. A type of high and low alone would be made of a Candle at each call that has one.
#[tactic(auto, unfolding(crate::specs::Code::Windows::row_at))]
fn row_at(ps: &[[f64; 6]], i: usize) -> Candle
    requires { i < length ps.now }
    ensures { result ≡ row_at ps.now i }
{
    candle_from(0, ps[i])
}

// Whether a scan takes the window at row i.
#[tactic(auto, unfolding(crate::specs::Code::Windows::taken_at))]
fn taken_at(ps: &[[f64; 6]], last: Option<Mark>, i: usize) -> bool
    requires { (i + 2 < length ps.now) × (i < 4294967296) }
    ensures { result ≡ taken_at ps.now last i }
{
    is_taken(last, row_at(ps, i), row_at(ps, i + 1), row_at(ps, i + 2))
}

// The first window of the rows, from row i on, that a scan takes. Where none is left, the row behind the last one that was looked at.
// Kept: a row and no Option, since callers go on from there: the windows before it need no second look.
pub fn next_row(ps: &[[f64; 6]], last: Option<Mark>, i: usize) -> usize
    requires { (length ps.now < 4294967296) × (i < 4294967296) }
    ensures { NextWindow (taken_at ps.now last) (length ps.now) i result }
{
    let end = ps.len().saturating_sub(2);
    (i..end)
        .find(
            |&j|
                requires { (j + 2 < length ps.now) × (j < 4294967296) }
            { taken_at(ps, last, j) },
        )
        .unwrap_or(i.max(end))
}

// Where to look for the first fractal of the view from place lo on, if the first `clear` windows of the store's n rows hold none.
fn look_from(n: usize, lo: usize, clear: usize) -> usize
    ensures { (lo ≤ result) × (lo < result → (result ≤ clear) × (result + 1 < n)) }
{
    lo.max(clear.min(n.saturating_sub(2)))
}

impl<'a> View<'a> {
    // How many bars it has.
    pub fn len(self) -> usize
        ensures { result ≡ places self.entry }
    {
        self.times.len() + self.tail_times.len()
    }

    // The candle at a place.
    pub fn candle(self, i: usize) -> Candle
        requires { i < places self }
        ensures { result ≡ candle_from (get_or (times_in self.entry) i (pos 0)) (get_or (rows_in self.entry) i []) }
    {
        let n = self.times.len();
        if i < n {
            return candle_from(self.times[i], self.prices[i]);
        }
        candle_from(self.tail_times[i - n], self.tail_prices[i - n])
    }

    // Whether a scan takes the window at place i.
    fn taken_in(self, last: Option<Mark>, i: usize) -> bool
        requires { (places self < 4294967296) × (i + 2 < places self) }
        ensures { result ≡ taken_at (rows_in self.entry) last i }
    {
        is_taken(last, self.candle(i), self.candle(i + 1), self.candle(i + 2))
    }

    // The first window from place i on that a scan takes: one that lies in the store's rows, or else one that reaches into the tail.
    fn next_window(self, last: Option<Mark>, i: usize) -> Option<usize>
        requires { (places self < 4294967296) × (i ≤ places self) }
        ensures { NextIn (taken_at (rows_in self.entry) last) (places self.entry) i result }
    {
        let from = next_row(self.prices, last, i);
        let end = self.len().saturating_sub(2);
        (from..end).find(
            |&j|
                requires { (places self < 4294967296) × (j + 2 < places self) }
            { self.taken_in(last, j) },
        )
    }

    // The fractal at place i; its place is counted from lo.
    #[tactic(auto, unfolding(crate::specs::Code::Windows::fx_in))]
    fn fractal(self, lo: usize, i: usize) -> Fx
        requires { (places self < 4294967296) × (i + 2 < places self) × (lo ≤ i) }
        ensures { result ≡ fx_in (times_in self.entry) (rows_in self.entry) lo i }
    {
        let b = self.candle(i + 1);
        let mark = fractal_mark(self.candle(i), b, self.candle(i + 2));
        fx_at(i - lo, mark, b)
    }

    // All windows from place lo on. Places are counted from there, and where no fractal is among them there is no scan. A caller that knows that the first
    // `clear` windows of the store's rows hold no fractal says so, and they are not looked at again: a series that only rises would be looked through from
    // its beginning for every bar. 0 is always true.
    // Kept: `clear` is a number with its fact beside it, here and in the crates above: the store's rows are written while batch keeps the number,
    // and a value that holds the fact would borrow these rows.
    // Kept: a loop that says where it goes on, since that follows from the window that was found.
    pub fn scan(self, lo: usize, clear: usize) -> Option<Scan>
        requires fact_1 { (places self < 4294967296) × (lo ≤ places self) }
        requires fact_2 { NoFractals self.prices.now clear }
        ensures value { result ≡ scan_of (drop lo (bars_in self.entry)) }
        ensures small { ScanFits result (places self.entry - lo) }
    {
        let mut seen: Option<Scan> = None;
        let mut from = look_from(self.prices.len(), lo, clear);
        while let Some(at) = self.next_window(seen.map(|s| s.last), from) {
            seen = Some(take(seen, self.fractal(lo, at)));
            from = at + 1;
        }
        seen
    }

    // check_bi of the source, from place lo on. Places are counted from there.
    pub fn check_bi(self, lo: usize, minimum: usize) -> Option<FoundBi>
        requires { (places self < 4294967296) × (lo ≤ places self) }
        ensures value { result ≡ found_from minimum lo (bars_in self.entry) }
        ensures small { FoundFits result (places self.entry - lo) }
    {
        found_bi(self.scan(lo, 0)?, minimum)
    }
}
