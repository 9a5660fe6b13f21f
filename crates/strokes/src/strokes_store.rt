// The lent store of strokes: the merged bars of the kept strokes, oldest first, and their fractals.
ghost use Rattle.std.specs.Prelude.{◌≡◌, ◌+◌, ◌-◌, ◌≤◌, ◌<◌, [], ◌∷◌, ◌++◌, length, take, drop, true, ltb, sum};
ghost use Rattle.stores.specs.Code.StoreRows.{RoomRaw};
ghost use Rattle.strokes.specs.StateRead.{bar_counts, fractal_counts, total};
ghost use Rattle.strokes.specs.Columns.{fractals_of, SameFractals};
ghost use Rattle.strokes.specs.Code.StrokeSteps.{set_fractal, RoomFractals, fractals_between, writing, put_fractal, put_window, LastStands, last_read, Fewer, Kept, Makeable, Made, ShedWhere, copied_fractals, moved_fractals, shifted, shed_stand, with_stroke, windows_end};
ghost use Rattle.strokes.specs.FractalRows.{put_fractals};
ghost use Rattle.stores.specs.Columns.{raw_in, merged_in, merged_of, SameMerged};

use super::fractal_rows::{end_index, prices_of, row_direction, stamps_of};
use crate::{FractalColumnsMut, Stand};
use bars::Bar;
use check_bi::Candle;
use machine::{Direction, Mark};
use stores::{MergedColumns, MergedColumnsMut, RawColumns};

// The fractals that have been written: how many, and the last one's mark.
#[derive(Clone, Copy)]
pub struct Written {
    pub count: usize,
    pub last: Option<Mark>,
}

// What the break test asks of the last stroke: the higher high and the lower low of its end fractals, its
// direction, how many bars it has, the time of its last bar but one, and the place where its bars begin.
// Kept: beside asking's Last, which is also made of a stroke that is only found yet and has no place in the store, and of which a break asks the mark.
#[derive(Clone, Copy)]
pub struct LastStroke {
    pub high: f64,
    pub low: f64,
    pub direction: Direction,
    pub bars: usize,
    pub time: i64,
    pub place: usize,
}

// ---- the fractals of a run of bars

impl<'a> FractalColumnsMut<'a> {
    // The rows of the fractal of these three bars.
    // Kept: three bars as three parameters, here and below, as the definitions have them (set_fractal, put_fractal, put_window).
    fn put_bars(&mut self, at: usize, a: Bar, b: Bar, c: Bar)
        requires { RoomFractals (fractals_of self.old) (at + 1) }
        ensures store { fractals_of self.new ≡ set_fractal (fractals_of self.old) at a b c }
        ensures same { SameFractals self.old self.new }
    {
        self.stamps[at] = stamps_of(a, b, c);
        self.prices[at] = prices_of(a, b, c);
    }

    // The fractal of mark m, unless the last one taken has this mark.
    // Kept: beside the walk of reports (FractalWalk), which hands fractals out one by one: here each is written at once, and no more is kept than how
    // many they are and the last one's mark.
    fn put_fractal(&mut self, at: usize, w: Written, m: Mark, a: Bar, b: Bar, c: Bar) -> Written
        requires { RoomFractals (fractals_of self.old) (at + w.count + 1) }
        ensures store { writing (fractals_of self.new) result ≡ put_fractal (writing (fractals_of self.old) w) at m a b c }
        ensures same { SameFractals self.old self.new }
    {
        if w.last == Some(m) {
            return w;
        }
        self.put_bars(at + w.count, a, b, c);
        Written {
            count: w.count + 1,
            last: Some(m),
        }
    }

    // The window of these three bars.
    fn put_window(&mut self, at: usize, w: Written, a: Bar, b: Bar, c: Bar) -> Written
        requires { RoomFractals (fractals_of self.old) (at + w.count + 1) }
        ensures store { writing (fractals_of self.new) result ≡ put_window (writing (fractals_of self.old) w) at a b c }
        ensures same { SameFractals self.old self.new }
    {
        match check_bi::mark_of(Candle::of(a), Candle::of(b), Candle::of(c)) {
            Some(m) => self.put_fractal(at, w, m, a, b, c),
            None => w,
        }
    }

    // check_fxs of the source, of the bars from place `first` on and before place `end`, written from place `at` on: how many there are.
    fn check_fxs(&mut self, at: usize, bars: RawColumns<'_>, first: usize, end: usize) -> usize
        requires fact_1 { first ≤ end }
        requires fact_2 { RoomRaw (raw_in bars) end }
        requires fact_3 { RoomFractals (fractals_of self.old) (at + (end - first) - 2) }
        ensures count { result ≡ length (fractals_between (raw_in bars.entry) first end) }
        ensures store { fractals_of self.new ≡ put_fractals (fractals_of self.old) at (fractals_between (raw_in bars.entry) first end) }
        ensures same { SameFractals self.old self.new }
    {
        let mut w = Written {
            count: 0,
            last: None,
        };
        // Kept: by place, since a bar's row lies in three columns: `windows` of each would have to be zipped, and a bar be made of three windows.
        for i in first..end.saturating_sub(2) {
            w = self.put_window(at, w, bars.bar(i), bars.bar(i + 1), bars.bar(i + 2));
        }
        w.count
    }

    // The rows of n fractals from place `from` to place `at`.
    fn move_rows(&mut self, from: usize, at: usize, n: usize)
        requires fact_1 { RoomFractals (fractals_of self.old) (from + n) }
        requires fact_2 { RoomFractals (fractals_of self.old) (at + n) }
        ensures store { fractals_of self.new ≡ copied_fractals (fractals_of self.old) at (fractals_of self.old) from n }
        ensures same { SameFractals self.old self.new }
    {
        stores::move_rows(self.stamps, from, at, n);
        stores::move_rows(self.prices, from, at, n);
    }

    // The fractals of all strokes but the oldest, which has `first` bars, down to the beginning. A stroke has fewer fractals than bars, so that many rows are free: only
    // those in use are moved, stroke by stroke.
    // Kept: by index: `bars.iter().zip(fractals).take(n).skip(1)` says in four steps what `1..n` says, and the place to move to is carried all the same.
    fn move_down(&mut self, bars: &[u32; 65], fractals: &[u32; 65], n: usize, first: usize)
        requires fact_1 { n ≤ 65 }
        requires fact_2 { Fewer (drop 1 (take n bars.now)) (drop 1 (take n fractals.now)) }
        requires fact_3 { RoomFractals (fractals_of self.old) (first + total (drop 1 (take n bars.now))) }
        ensures store { fractals_of self.new ≡ moved_fractals (drop 1 (take n bars.now)) (drop 1 (take n fractals.now)) first (fractals_of self.old) }
        ensures same { SameFractals self.old self.new }
    {
        let mut to: usize = 0;
        for k in 1..n {
            let count = bars[k] as usize;
            self.move_rows(to + first, to, fractals[k] as usize);
            to += count;
        }
    }
}

// ---- the counts of the kept strokes

// So many numbers of bars or of fractals, added up. The stand has them as u32: its two arrays are copied with it, and of usizes they would be twice as large.
fn sum_of(counts: &[u32]) -> usize
    requires { sum counts.now < 9223372036854775808 }
    ensures { result ≡ sum counts.now }
{
    counts.iter().map(|count| *count as usize).sum()
}

// The first n numbers of bars, added up: where the next stroke begins.
// Kept: of the counts and not of a stand, as `total` in specs/ is: a method of the stand would save its callers the word `.bars` and promise the same.
pub fn total_bars(counts: [u32; 65], n: usize) -> usize
    requires fact_1 { n ≤ 65 }
    requires fact_2 { total (take n counts) < 9223372036854775808 }
    ensures { result ≡ total (take n counts) }
{
    sum_of(&counts[..n])
}

// All counts one place down.
fn one_down(mut counts: [u32; 65]) -> [u32; 65]
    ensures { result ≡ shifted counts }
{
    counts.copy_within(1..65, 0);
    counts
}

// Where the windows of a stroke's fractals end.
// Kept: a test and no `(first + bars + 1).min(n)`, since that sum could be too large for a usize.
fn windows_end(first: usize, bars: usize, n: usize) -> usize
    requires { first + bars ≤ n }
    ensures { result ≡ windows_end first bars n }
{
    let end = first + bars;
    if end < n { end + 1 } else { end }
}

// ---- the last stroke

// The last stroke, where the strokes' bars take up `used` places, for a caller that has added them up.
// Kept: of two columns, here and in last_stroke, since it reads no others: with all stores as one value the contracts would name these two of them again.
// Kept: a fractal row's high and low by their numbers, 8 and 9: a pattern has eighteen places for these two.
pub fn last_stroke_within(stand: Stand, st: &[i64], fp: &[[f64; 18]], used: usize) -> LastStroke
    requires fact_1 { LastStands stand (length st.now) }
    requires fact_2 { length fp.now ≡ length st.now }
    requires fact_3 { used ≡ total (bar_counts stand) }
    ensures { result ≡ last_read stand st.now fp.now }
{
    let n = stand.strokes - 1;
    let bars = stand.bars[n] as usize;
    let place = used - bars;
    let e = end_index(stand.fractals[n] as usize);
    let i = place + e;
    let j = place + bars - 2;
    let a = fp[place];
    let b = fp[i];
    LastStroke {
        high: arith::max(a[8], b[8]),
        low: arith::min(a[9], b[9]),
        direction: row_direction(a),
        bars,
        time: st[j],
        place,
    }
}

// The last stroke.
pub fn last_stroke(stand: Stand, st: &[i64], fp: &[[f64; 18]]) -> LastStroke
    requires fact_1 { LastStands stand (length st.now) }
    requires fact_2 { length fp.now ≡ length st.now }
    ensures { result ≡ last_read stand st.now fp.now }
{
    let used = total_bars(stand.bars, stand.strokes);
    last_stroke_within(stand, st, fp, used)
}

impl Stand {
    // The stand without its oldest stroke.
    fn shed_counts(self) -> Stand
        requires { (1 ≤ self.strokes) × (self.strokes ≤ 65) }
        ensures { (result ≡ shed_stand self) × (bar_counts result ≡ drop 1 (bar_counts self)) × (fractal_counts result ≡ drop 1 (fractal_counts self)) }
    {
        Stand {
            strokes: self.strokes - 1,
            bars: one_down(self.bars),
            fractals: one_down(self.fractals),
            ..self
        }
    }

    // The stand with one stroke more.
    fn with_stroke(mut self, n: usize, m: usize) -> Stand
        requires { (self.strokes ≤ 64) × (n < 4294967296) × (m < 4294967296) }
        ensures { (result ≡ with_stroke self n m) × (bar_counts result ≡ bar_counts self ++ n ∷ []) × (fractal_counts result ≡ fractal_counts self ++ m ∷ []) × (length (bar_counts self) ≡ length (fractal_counts self)) }
    {
        self.bars[self.strokes] = n as u32;
        self.fractals[self.strokes] = m as u32;
        self.strokes += 1;
        self
    }

    // The oldest stroke goes, and its bars and fractals with it.
    pub fn shed(
        self,
        strokes: &mut MergedColumnsMut<'_>,
        fractals: &mut FractalColumnsMut<'_>,
    ) -> Stand
        requires fact_1 { 1 ≤ self.strokes }
        requires fact_2 { Kept self (merged_of strokes.old) (fractals_of fractals.old) }
        ensures shed { ShedWhere true self (merged_of strokes.old) (fractals_of fractals.old) result (merged_of strokes.new) (fractals_of fractals.new) }
        ensures same_strokes { SameMerged strokes.old strokes.new }
        ensures same_fractals { SameFractals fractals.old fractals.new }
    {
        let used = total_bars(self.bars, self.strokes);
        let first = self.bars[0] as usize;
        strokes.move_bars(first, 0, used - first);
        fractals.move_down(&self.bars, &self.fractals, self.strokes, first);
        self.shed_counts()
    }

    // The oldest stroke beyond the most goes.
    pub fn shed_if(
        self,
        strokes: &mut MergedColumnsMut<'_>,
        fractals: &mut FractalColumnsMut<'_>,
    ) -> Stand
        requires { Kept self (merged_of strokes.old) (fractals_of fractals.old) }
        ensures shed { ShedWhere (ltb self.most self.strokes) self (merged_of strokes.old) (fractals_of fractals.old) result (merged_of strokes.new) (fractals_of fractals.new) }
        ensures same_strokes { SameMerged strokes.old strokes.new }
        ensures same_fractals { SameFractals fractals.old fractals.new }
    {
        if self.most < self.strokes {
            return self.shed(strokes, fractals);
        }
        self
    }

    // The unfinished bars from place `first` on, so many, become a stroke: they and their fractals are put behind those of the kept strokes.
    pub fn make_stroke(
        self,
        unfinished: MergedColumns<'_>,
        strokes: &mut MergedColumnsMut<'_>,
        fractals: &mut FractalColumnsMut<'_>,
        first: usize,
        bars: usize,
    ) -> Stand
        requires fact_1 { Makeable self (merged_in unfinished) first bars }
        requires fact_2 { Kept self (merged_of strokes.old) (fractals_of fractals.old) }
        ensures made { Made self (merged_in unfinished.entry) (merged_of strokes.old) (fractals_of fractals.old) first bars result (merged_of strokes.new) (fractals_of fractals.new) }
        ensures same_strokes { SameMerged strokes.old strokes.new }
        ensures same_fractals { SameFractals fractals.old fractals.new }
    {
        let used = total_bars(self.bars, self.strokes);
        let end = windows_end(first, bars, self.unfinished);
        strokes.join(used, unfinished, first, bars);
        let m = fractals.check_fxs(used, unfinished.bars(), first, end);
        self.with_stroke(bars, m)
    }
}
