// The summary of the unfinished stroke: get_ubi of the source, asked of a stand and its lent stores. Question 4
// is asked first, then question 15.
ghost use Rattle.std.specs.Prelude.{◌≡◌, ◌≤◌, length, take, None};
ghost use mathlib.Core.List.{foldl};
ghost use Rattle.std.specs.Float.Ieee.{lt, le};
ghost use Rattle.bars.specs.Lists.{join};
ghost use Rattle.stores.specs.Stores.{raw_bars, zip_with};
ghost use Rattle.strokes.specs.StateRead.{state_of};
ghost use Rattle.strokes.specs.Columns.{stores_in};
ghost use Rattle.sound.specs.StandSound.{IsSound};
ghost use Rattle.reports.specs.Unfinished.{one_of, get_ubi};
ghost use Rattle.machine.specs.Strokes.{turned as turnedOf};
ghost use Rattle.reports.specs.UbiAnswers.{ubi_given, ubi_answer};
ghost use Rattle.reports.specs.Code.UbiSteps.{RisingFirst, see as seeOf, see_at};
ghost use Rattle.stores.specs.Columns.{raw_in};

use super::first_questions::ask_sound;
use super::fractal_walk::{FractalBars, FractalWalk};
use bars::{Bar, Question};
use machine::Direction;
use named::kept;
use stores::RawColumns;
use strokes::{Stand, StoreColumns};

// The highest and the lowest of the bars that were seen.
#[derive(Clone, Copy)]
pub struct Extremes {
    pub high: Bar,
    pub low: Bar,
}

// UBI of the source, its lists by their lengths: `bars` are the stand's unfinished bars and `raw` its kept raw
// bars, both of which stand in the lent stores; `fractals` are those of the unfinished bars, of which `first` is
// the first, and ubi_fxs lists them.
#[derive(Clone, Copy)]
pub struct UbiSummary {
    pub direction: Direction,
    pub high: f64,
    pub low: f64,
    // Kept: so spelled, since the fields are public and the definition of the answer (ubi_given) names them; the source has high_bar and low_bar.
    pub highBar: Bar,
    pub lowBar: Bar,
    pub bars: usize,
    pub raw: usize,
    pub fractals: usize,
    pub first: FractalBars,
}

// ---- the highest and the lowest bar

// Of tied highs the later one.
fn higher(h: Bar, b: Bar) -> Bar
    ensures { result ≡ one_of (lt b.high h.high) h b }
{
    if b.high < h.high {
        return h;
    }
    b
}

// Of tied lows the earlier one.
fn lower(l: Bar, b: Bar) -> Bar
    ensures { result ≡ one_of (le l.low b.low) l b }
{
    if l.low <= b.low {
        return l;
    }
    b
}

// Those seen with one bar more, which is both where it is the first.
fn see(seen: Option<Extremes>, b: Bar) -> Extremes
    ensures { result ≡ seeOf seen b }
{
    let Some(e) = seen else {
        return Extremes { high: b, low: b };
    };
    let high = higher(e.high, b);
    let low = lower(e.low, b);
    Extremes { high, low }
}

// The raw bar of time t, if one of the first n has it.
fn see_named(e: Option<Extremes>, raw: RawColumns<'_>, n: usize, t: i64) -> Option<Extremes>
    requires { RisingFirst (raw_in raw) n }
    ensures { result ≡ see_at (take n (raw_bars (raw_in raw.entry))) e t }
{
    let Some(b) = raw.named(n, t) else {
        return e;
    };
    Some(see(e, b))
}

// The raw bars that the first `count` elements of a row name.
// Kept: loose counts and elements, here and below, and no InnerBars, of whose elements each names a raw bar: here one that names none is passed over (see_at).
// `n` stands beside the columns as RawColumns::named asks it.
fn see_row(
    e: Option<Extremes>,
    raw: RawColumns<'_>,
    n: usize,
    row: &[i64],
    count: usize,
) -> Option<Extremes>
    requires { RisingFirst (raw_in raw) n }
    ensures { result ≡ foldl (see_at (take n (raw_bars (raw_in raw.entry)))) e (take count row.now) }
{
    let k = count.min(row.len());
    let mut s = e;
    // Kept: by place. Tried over `&row[..k]`: that an element of the part is a value of its type, which the call needs, did not close.
    for j in 0..k {
        let t = row[j];
        s = see_named(s, raw, n, t);
    }
    s
}

// The highest and the lowest of the raw bars that the elements of these merged bars name, if they name any.
fn see_rows(raw: RawColumns<'_>, n: usize, cs: &[usize], es: &[[i64; 101]]) -> Option<Extremes>
    requires fact_1 { RisingFirst (raw_in raw) n }
    requires fact_2 { (length cs.now ≡ length es.now) × (length cs.now ≤ 65536) }
    ensures { result ≡ foldl (see_at (take n (raw_bars (raw_in raw.entry)))) None (join (zip_with take cs.now es.now)) }
{
    let mut s = None;
    // Kept: by place: a zip would name a row and its count in place of i, and read no plainer.
    for i in 0..cs.len() {
        s = see_row(s, raw, n, &es[i], cs[i]);
    }
    s
}

// ---- the summary

// The other way.
// Kept: two arms, since the library has nothing that gives the other of two variants; `!` of Direction would have these same two.
fn turned(d: Direction) -> Direction
    ensures { result ≡ turnedOf d }
{
    match d {
        Direction::Up => Direction::Down,
        Direction::Down => Direction::Up,
    }
}

// The summary of a sound stand, or the refusal of question 15.
// Kept: let-else, so that the three refusals read alike: `ok_or` with `?` would serve two of them, and the first has no Option.
fn summary(stand: Stand, stores: StoreColumns<'_>) -> Result<UbiSummary, Question>
    requires { IsSound stand (stores_in stores) }
    ensures { result ≡ ubi_given (get_ubi (state_of stand (stores_in stores.entry)).raw (state_of stand (stores_in stores.entry)).unfinished (state_of stand (stores_in stores.entry)).strokes) }
{
    let k = kept(stand);
    let n = stand.raw;
    let m = stand.unfinished;
    if k == 0 {
        return Err(Question::Summary);
    }
    let bars = stores.unfinished;
    let Some(e) = see_rows(stores.raw, n, &bars.counts[..m], &bars.elements[..m]) else {
        return Err(Question::Summary);
    };
    let mut fractals = FractalWalk::new(bars.bars(), m);
    let Some(first) = fractals.next() else {
        return Err(Question::Summary);
    };
    let b = strokes::last_stroke(stand, stores.strokes.times, stores.fractals.prices);
    Ok(UbiSummary {
        direction: turned(b.direction),
        high: e.high.high,
        low: e.low.low,
        highBar: e.high,
        lowBar: e.low,
        bars: m,
        raw: n,
        fractals: 1 + fractals.count(),
        first,
    })
}

// Of any stand. Of UBI it gives the direction, the high and the low with their bars, the first fractal, and how long the
// three lists are. The lists themselves: the unfinished and the raw bars are in the lent stores, the fractals in ubi_fxs.
// Questions 4 and 15.
pub fn get_ubi(stand: Stand, stores: StoreColumns<'_>) -> Result<UbiSummary, Question>
    ensures { result ≡ ubi_answer stand (stores_in stores.entry) }
{
    ask_sound(stand, stores)?;
    summary(stand, stores)
}
