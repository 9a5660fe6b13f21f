// Question 4 of document 01: is the stand sound? A scan of rows puts its tests together as flags, `&` and not `&&`, without a branch, and
// looks only at the columns that its clause speaks of. The scans of times stop at the first that fails: without a branch, a compare of
// two i64s takes several instructions.
ghost use Rattle.std.specs.Prelude.{◌≡◌, true, false, ◌&&◌, cond, [], ◌∷◌, map, ◌+◌, ◌-◌, ◌≤◌, ◌<◌, Bool, length, take, T, leb};
ghost use Rattle.std.specs.Option.{is_some};
ghost use Rattle.std.specs.Float.Ieee.{lt};
ghost use Rattle.bars.specs.Lists.{every, last};
ghost use Rattle.stores.specs.Code.StoreRows.{SizedMerged};
ghost use Rattle.machine.specs.Soundness.{rises, is_setting, ends_on};
ghost use Rattle.strokes.specs.Code.StrokeSteps.{SizedFractals};
ghost use Rattle.strokes.specs.StateRead.{raw_sized, merged_sized, fractal_sized, total};
ghost use Rattle.sound.specs.Code.SoundStand.{in_time, times_pass, size_of, above_zero, of_any_sign, prices_by, raw_row_by, merged_row_by, raw_row, merged_row, small_count, top_row, alternating, is_real, ends_held, middle_times, stamps_pass, bars_by, bars_pass, fractal_columns, newest_row, numbers_pass, raw_columns, skipped, unfinished_columns, stroke_columns, strokes_columns};
ghost use Rattle.sound.specs.FreshStand.{columns_agree};
ghost use Rattle.sound.specs.StandSound.{stores_sound};
ghost use Rattle.stores.specs.Columns.{raw_in, merged_in};
ghost use Rattle.strokes.specs.Columns.{fractals_in, stores_in};

use super::fresh_stand::{is_places, rooms_fit};
use super::raw_times::RawTimes;
use bars::{FIRST_TIME, LAST_TIME, LEAST_PRICE, MOST_PRICE, from_zero, is_price, is_volume};
use stores::{MergedColumns, RawColumns};
use strokes::{FractalColumns, Rooms, Stand, StoreColumns};

// ---- times

// Each time is compared with the next one only: the order of times is transitive.
pub fn times_rise(ts: &[i64]) -> bool
    ensures { result ≡ rises ts.now }
{
    ts.is_sorted_by(|a, b| a < b)
}

// Question 5 of a time.
// Kept: beside time_in_range of bars, which is asked of a bar; and by two tests and no branch, as a scan asks it: `contains` tests one after the other.
fn is_in_time(t: i64) -> bool
    ensures { result ≡ in_time t }
{
    (FIRST_TIME <= t) & (t <= LAST_TIME)
}

// Times that rise pass question 5 if the first and the last do.
// Kept: by length and place. `first()` and `last()` would be two Options, and one test for an empty list does for both.
pub fn times_pass(ts: &[i64]) -> bool
    ensures { result ≡ times_pass ts.now }
{
    let n = ts.len();
    if n == 0 {
        return true;
    }
    (is_in_time(ts[0]) & is_in_time(ts[n - 1])) && times_rise(ts)
}

// ---- rows of prices
// Kept: `smaller` and `larger`, since the library's `min` and `max` never answer NaN where the other is a number, and `above_zero` needs the NaN.
// Kept: a bar's numbers one by one, by their places in a row, since a fractal's row of eighteen has three bars behind one another, none a row of its own.

// The smaller of the two, and y where one of them is NaN.
fn smaller(x: f64, y: f64) -> f64
    ensures { result ≡ cond (lt x y) x y }
{
    if x < y { x } else { y }
}

// The larger of the two, and x where one of them is NaN.
fn larger(x: f64, y: f64) -> f64
    ensures { result ≡ cond (lt x y) y x }
{
    if x < y { y } else { x }
}

// The size of x, by one pick. Of minus zero it is minus zero.
fn size(x: f64) -> f64
    ensures { result ≡ size_of x }
{
    larger(x, -x)
}

// Questions 6 and 8 of a bar whose prices lie above zero. The smallest price alone is asked whether it is too small, and the
// largest whether it is too large: the processor picks one of two floats by a single instruction.
// No NaN is lost on the way: one in open comes out of `larger` and one in close out of `smaller`,
// high and low do not take its place, and a NaN in high or low fails the last test.
fn above_zero(open: f64, close: f64, high: f64, low: f64) -> bool
    ensures { result ≡ above_zero «open» close high low }
{
    let smallest = smaller(low, smaller(open, close));
    let largest = larger(larger(open, close), high);
    ((LEAST_PRICE <= smallest) & (largest <= MOST_PRICE)) & (low <= high)
}

// Questions 6 and 8 of a bar, price by price.
fn each_price_passes(open: f64, close: f64, high: f64, low: f64) -> bool
    ensures { result ≡ of_any_sign «open» close high low }
{
    (is_price(open) & is_price(close)) & ((is_price(high) & is_price(low)) & (low <= high))
}

// Questions 6 and 8 of a bar. Prices of any sign but zero pass by their sizes.
fn any_sign_passes(open: f64, close: f64, high: f64, low: f64) -> bool
    ensures { result ≡ of_any_sign «open» close high low }
{
    let h = size(high);
    let l = size(low);
    let sized = above_zero(size(open), size(close), larger(h, l), smaller(h, l)) & (low <= high);
    sized || each_price_passes(open, close, high, low)
}

// Questions 6 and 8 of a bar, as a scan asks them. Most bars lie above zero, so a scan first lets only these through, which takes
// no branch, and asks prices of any sign where one row fails. Each way is a function of its own.
fn prices_pass<const ANY_SIGN: bool>(open: f64, close: f64, high: f64, low: f64) -> bool
    ensures { result ≡ prices_by ANY_SIGN «open» close high low }
{
    if ANY_SIGN {
        return any_sign_passes(open, close, high, low);
    }
    above_zero(open, close, high, low)
}

fn raw_row<const ANY_SIGN: bool>(p: [f64; 6]) -> bool
    ensures { result ≡ raw_row_by ANY_SIGN p }
{
    prices_pass::<ANY_SIGN>(p[0], p[1], p[2], p[3]) & (is_volume(p[4]) & is_volume(p[5]))
}

// A merged bar's prices, its vol and its amount.
fn bar_passes<const ANY_SIGN: bool>(
    open: f64,
    close: f64,
    high: f64,
    low: f64,
    vol: f64,
    amount: f64,
) -> bool
    ensures { result ≡ merged_row_by ANY_SIGN («open» ∷ close ∷ high ∷ low ∷ vol ∷ amount ∷ []) }
{
    prices_pass::<ANY_SIGN>(open, close, high, low) & (from_zero(vol) & from_zero(amount))
}

fn merged_row<const ANY_SIGN: bool>(p: [f64; 6]) -> bool
    ensures { result ≡ merged_row_by ANY_SIGN p }
{
    bar_passes::<ANY_SIGN>(p[0], p[1], p[2], p[3], p[4], p[5])
}

// The prices of a fractal's three bars.
fn three_bars<const ANY_SIGN: bool>(p: [f64; 18]) -> bool
    ensures { result ≡ bars_by ANY_SIGN p }
{
    bar_passes::<ANY_SIGN>(p[0], p[1], p[2], p[3], p[4], p[5])
        & (bar_passes::<ANY_SIGN>(p[6], p[7], p[8], p[9], p[10], p[11])
            & bar_passes::<ANY_SIGN>(p[12], p[13], p[14], p[15], p[16], p[17]))
}

// Whether every row passes, put together as one flag.
// Kept: a loop. The closure of a fold would call `passes`, of which only a relation of row and answer is known (F.post): the fold's contract would
// speak of that relation, and not of the test p.
fn all_pass<T: Copy, F: Fn(T) -> bool>(rows: &[T], passes: F) -> bool
    requires { F.IsAlwaysCallable passes }
    ensures { (p : T → Bool) → ((x : T) (r : Bool) → F.post passes x r → r ≡ p x) → result ≡ every p rows.now }
{
    let mut ok = true;
    for row in rows {
        ok &= passes(*row);
    }
    ok
}

// Kept: each test is named twice, here and below, once for either way, since a function that is handed to another can't be told its const parameter there.
pub fn raw_rows_pass(ps: &[[f64; 6]]) -> bool
    ensures { result ≡ every raw_row ps.now }
{
    all_pass(ps, raw_row::<false>) || all_pass(ps, raw_row::<true>)
}

pub fn merged_rows_pass(ps: &[[f64; 6]]) -> bool
    ensures { result ≡ every merged_row ps.now }
{
    all_pass(ps, merged_row::<false>) || all_pass(ps, merged_row::<true>)
}

// A fractal holds three merged bars of its own, which later merging does not change.
fn bars_pass(fp: &[[f64; 18]]) -> bool
    ensures { result ≡ every bars_pass fp.now }
{
    all_pass(fp, three_bars::<false>) || all_pass(fp, three_bars::<true>)
}

// No merged bar has more than 101 elements.
pub fn counts_pass(cs: &[usize]) -> bool
    ensures { result ≡ every small_count cs.now }
{
    all_pass(cs, |n| n <= 101)
}

// ---- the fractals of a stroke

// A fractal's row shows a top: the highs of its bars stand at 2, 8 and 14, the lows at 3, 9 and 15.
// Kept: by flags, beside check_bi's is_top, which branches: with a branch in a row's test question 4 took two fifths longer (docs/PROVING.md).
// Kept: by the numbers of the places, here and below, since a pattern has eighteen places for these six or two.
fn is_top_row(p: [f64; 18]) -> bool
    ensures { result ≡ top_row p }
{
    ((p[2] < p[8]) & (p[14] < p[8])) & ((p[3] < p[9]) & (p[15] < p[9]))
}

// The times of the middle bars rise.
fn middles_rise(fs: &[[i64; 6]]) -> bool
    ensures { result ≡ rises (middle_times fs.now) }
{
    fs.is_sorted_by(|a, b| a[1] < b[1])
}

// Tops and bottoms alternate. Each mark is worked out once, and kept for the turn after its own.
fn marks_alternate(fp: &[[f64; 18]]) -> bool
    ensures { result ≡ alternating (map top_row fp.now) }
{
    let Some((first, rest)) = fp.split_first() else {
        return true;
    };
    let mut ok = true;
    let mut top = is_top_row(*first);
    for p in rest {
        let next = is_top_row(*p);
        ok &= top != next;
        top = next;
    }
    ok
}

// High and low of the middle bar are no NaN.
fn is_real(p: [f64; 18]) -> bool
    ensures { result ≡ is_real p }
{
    !p[8].is_nan() & !p[9].is_nan()
}

// A stroke starts on its first fractal and ends on the last one, or on the last but one where they
// are odd in number.
// Kept: by length and place, since the end's place is worked out from the length.
fn ends_held(fp: &[[f64; 18]]) -> bool
    ensures { result ≡ ends_held fp.now }
{
    let n = fp.len();
    if n == 0 {
        return false;
    }
    if n == 1 {
        return is_real(fp[0]);
    }
    is_real(fp[0]) & is_real(fp[2 * (n / 2) - 1])
}

// Question 5 of a fractal's three bars.
fn stamps_in_time(t: [i64; 6]) -> bool
    ensures { result ≡ stamps_pass t }
{
    is_in_time(t[0]) & (is_in_time(t[1]) & is_in_time(t[2]))
}

fn stamps_pass(fs: &[[i64; 6]]) -> bool
    ensures { result ≡ every stamps_pass fs.now }
{
    fs.iter().all(|t| stamps_in_time(*t))
}

fn fractals_pass(fractals: FractalColumns<'_>) -> bool
    ensures { result ≡ fractal_columns fractals.entry.stamps.now fractals.entry.prices.now }
{
    let stamps = fractals.stamps;
    let prices = fractals.prices;
    (middles_rise(stamps) & stamps_pass(stamps))
        & (bars_pass(prices) & (marks_alternate(prices) & ends_held(prices)))
}

// ---- the newest raw bar

// t is the last of the first `count` elements of a row.
// Kept: a row without elements in use by a test of its own: `last() == Some(&t)` would tell it only by what None is not equal to.
fn is_last(t: i64, row: &[i64], count: usize) -> bool
    ensures { result ≡ ends_on t (last (take count row.now)) }
{
    let n = count.min(row.len());
    if n == 0 {
        return false;
    }
    t == row[n - 1]
}

// The newest raw time, if any, is the last element of the last row.
// Kept: column by column, since `newest_is_last` asks a caller for no more columns than these; by length and place, since one test for no rows does for
// both columns.
pub fn newest_named(ts: &[i64], cs: &[usize], es: &[[i64; 101]]) -> bool
    requires { length cs.now ≡ length es.now }
    ensures { result ≡ newest_row ts.now cs.now es.now }
{
    let n = ts.len();
    if n == 0 {
        return true;
    }
    let m = cs.len();
    if m == 0 {
        return false;
    }
    is_last(ts[n - 1], &es[m - 1], cs[m - 1])
}

// ---- numbers

pub fn is_setting(n: usize) -> bool
    ensures { result ≡ is_setting n }
{
    (1..=64).contains(&n)
}

// These numbers together are at most `room`: what is left of it is counted down, since a sum could be too large for a usize.
// Kept: a loop, whose invariant is what is left of `room`. A try_fold promises the run of its steps, and to tell the sum from it is as long as this loop.
fn total_fits(bars: &[u32], room: usize) -> bool
    ensures { result ≡ leb (total bars.now) room }
{
    let mut left = room;
    for n in bars {
        let Some(rest) = left.checked_sub(*n as usize) else {
            return false;
        };
        left = rest;
    }
    true
}

fn raw_sized(n: usize, raw: RawColumns<'_>) -> bool
    ensures { result ≡ raw_sized n (raw_in raw.entry) }
{
    (raw.times.len() == n) & ((raw.ids.len() == n) & (raw.prices.len() == n))
}

fn merged_sized(n: usize, merged: MergedColumns<'_>) -> bool
    ensures { result ≡ merged_sized n (merged_in merged.entry) }
{
    raw_sized(n, merged.bars()) & ((merged.counts.len() == n) & (merged.elements.len() == n))
}

fn fractal_sized(n: usize, fractals: FractalColumns<'_>) -> bool
    ensures { result ≡ fractal_sized n (fractals_in fractals.entry) }
{
    (fractals.stamps.len() == n) & (fractals.prices.len() == n)
}

// ---- the lists

fn raw_columns_pass(raw: RawColumns<'_>) -> bool
    ensures { result ≡ raw_columns raw.entry.times.now raw.entry.prices.now }
{
    times_pass(raw.times) && raw_rows_pass(raw.prices)
}

// Merged bars, but for the names of their elements.
fn merged_columns_pass(bars: MergedColumns<'_>) -> bool
    ensures { result ≡ (times_pass bars.entry.times.now && (every merged_row bars.entry.prices.now && every small_count bars.entry.counts.now)) }
{
    times_pass(bars.times) && (merged_rows_pass(bars.prices) & counts_pass(bars.counts))
}

// Where another bar follows it, the first unfinished bar is not asked for its elements.
fn skipped(n: usize) -> usize
    ensures is { result ≡ skipped n }
    ensures within { result ≤ n }
{
    if n <= 1 { 0 } else { 1 }
}

// The unfinished bars.
// Kept: a return for each test, here and below, one clause of question 4 a line; behind the last one the parts are made that are asked next, which `||` could
// not hold.
fn unfinished_pass(raw: RawTimes<'_>, unfinished: MergedColumns<'_>) -> bool
    requires { SizedMerged (merged_in unfinished) (length unfinished.times.now) }
    ensures { result ≡ unfinished_columns raw.entry.times.now unfinished.entry.times.now unfinished.entry.prices.now unfinished.entry.counts.now unfinished.entry.elements.now }
{
    if !merged_columns_pass(unfinished) {
        return false;
    }
    if !newest_named(raw.times, unfinished.counts, unfinished.elements) {
        return false;
    }
    let n = unfinished.times.len();
    let asked = unfinished.part(skipped(n), n);
    raw.rows_named(asked, 0).is_some()
}

// One stroke: its bars and its fractals. Its elements are looked for at `from`, and the next stroke's at the place that is answered.
fn stroke_pass(
    raw: RawTimes<'_>,
    bars: MergedColumns<'_>,
    fractals: FractalColumns<'_>,
    from: usize,
) -> Option<usize>
    requires { SizedMerged (merged_in bars) (length bars.times.now) }
    ensures { is_some result ≡ stroke_columns raw.entry.times.now bars.entry.times.now bars.entry.prices.now bars.entry.counts.now bars.entry.elements.now fractals.entry.stamps.now fractals.entry.prices.now }
{
    let n = bars.times.len();
    if n < 4 {
        return None;
    }
    if !merged_columns_pass(bars) {
        return None;
    }
    if !fractals_pass(fractals) {
        return None;
    }
    let inner = bars.part(1, n - 1);
    raw.rows_named(inner, from)
}

// The first n strokes, of these numbers of bars and of fractals.
// Kept: by index, since the loop's invariant speaks of what both arrays have from the same place on: with `zip` it would speak of one list of pairs.
// Kept: the lengths of both arrays in the contract, here and in strokes_sound, where the proof of is_sound has them from: as an invariant of Stand they would
// be proved wherever a stand is made or changed.
fn strokes_pass(
    raw: RawTimes<'_>,
    n: usize,
    bars: [u32; 65],
    fractals: [u32; 65],
    strokes: MergedColumns<'_>,
    marks: FractalColumns<'_>,
) -> bool
    requires few { (n ≤ 64) × (length strokes.times.now ≤ 65536) × (total (take n bars) ≤ length strokes.times.now) }
    requires sizes { (SizedMerged (merged_in strokes) (length strokes.times.now)) × (SizedFractals (fractals_in marks) (length strokes.times.now)) }
    ensures { (result ≡ strokes_columns raw.entry.times.now (take n bars) (take n fractals) strokes.entry.times.now strokes.entry.prices.now strokes.entry.counts.now strokes.entry.elements.now marks.entry.stamps.now marks.entry.prices.now) × (length bars ≡ 65) × (length fractals ≡ 65) }
{
    let mut a: usize = 0;
    let mut from: usize = 0;
    for k in 0..n {
        let b = bars[k] as usize;
        let f = fractals[k] as usize;
        if b <= f {
            return false;
        }
        let end = a + b;
        let own = strokes.part(a, end);
        let marked = marks.part(a, a + f);
        let Some(next) = stroke_pass(raw, own, marked, from) else {
            return false;
        };
        from = next;
        a = end;
    }
    true
}

// What is asked of a stand's numbers alone.
fn numbers_pass(stand: Stand) -> bool
    ensures { result ≡ numbers_pass stand }
{
    let n = stand.strokes;
    let rooms = stand.rooms;
    if 64 < n {
        return false;
    }
    let counts = ((stand.raw <= rooms.raw) & (stand.unfinished <= rooms.unfinished))
        & total_fits(&stand.bars[..n], rooms.strokes);
    let settings = rooms_fit(rooms)
        & ((is_setting(stand.minimum) & is_setting(stand.most))
            & (is_places(stand.power_places) & is_places(stand.ratio_places)));
    counts & settings
}

// No more than the most strokes.
fn strokes_sound(
    stand: Stand,
    raw: RawTimes<'_>,
    strokes: MergedColumns<'_>,
    marks: FractalColumns<'_>,
) -> bool
    requires few { (stand.strokes ≤ 64) × (length strokes.times.now ≤ 65536) × (total (take stand.strokes stand.bars) ≤ length strokes.times.now) }
    requires sizes { (SizedMerged (merged_in strokes) (length strokes.times.now)) × (SizedFractals (fractals_in marks) (length strokes.times.now)) }
    ensures { (result ≡ (leb stand.strokes stand.most && strokes_columns raw.entry.times.now (take stand.strokes stand.bars) (take stand.strokes stand.fractals) strokes.entry.times.now strokes.entry.prices.now strokes.entry.counts.now strokes.entry.elements.now marks.entry.stamps.now marks.entry.prices.now)) × (length stand.bars ≡ 65) × (length stand.fractals ≡ 65) }
{
    let n = stand.strokes;
    if stand.most < n {
        return false;
    }
    strokes_pass(raw, n, stand.bars, stand.fractals, strokes, marks)
}

// ---- the stand

// Every column of a store has the store's length.
pub fn columns_agree(rooms: Rooms, stores: StoreColumns<'_>) -> bool
    ensures { result ≡ columns_agree rooms (stores_in stores.entry) }
{
    (raw_sized(rooms.raw, stores.raw) & merged_sized(rooms.unfinished, stores.unfinished))
        & (merged_sized(rooms.strokes, stores.strokes)
            & fractal_sized(rooms.strokes, stores.fractals))
}

// Soundness of any stand, whatever the stores hold.
pub fn is_sound(stand: Stand, stores: StoreColumns<'_>) -> bool
    ensures { result ≡ stores_sound stand (stores_in stores.entry) }
{
    if !columns_agree(stand.rooms, stores) {
        return false;
    }
    if !numbers_pass(stand) {
        return false;
    }
    let raw = stores.raw.part(0, stand.raw);
    let unfinished = stores.unfinished.part(0, stand.unfinished);
    if !raw_columns_pass(raw) {
        return false;
    }
    let times = RawTimes { times: raw.times };
    if !unfinished_pass(times, unfinished) {
        return false;
    }
    strokes_sound(stand, times, stores.strokes, stores.fractals)
}
