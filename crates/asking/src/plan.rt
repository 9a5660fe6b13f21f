// What a feed would do to the strokes and to the unfinished bars, and questions 11 and 12, asked of it. Nothing is written here.
ghost use Rattle.std.specs.Prelude.{◌≡◌, ◌+◌, ◌≤◌, ◌<◌, drop, IfSome};
ghost use Rattle.bars.specs.Refusals.{asked};
ghost use Rattle.stores.specs.Code.StoreRows.{place_of};
ghost use Rattle.check_bi.specs.Code.View.{times_in, bars_in, places};
ghost use Rattle.check_bi.specs.Code.Windows.{NoFractals};
ghost use Rattle.asking.specs.Code.FeedPlan.{Long, end_in, bars_made, breaks_of, last_with, kept_of, plan_first, plan_later, plan_of, refused_of, InView};

use bars::Question;
use check_bi::{Candle, FoundBi, View, found_bi};
use machine::Mark;
use strokes::Rooms;

// Of the last stroke, what its break goes by: its start's mark, its high and low, how many merged bars it has, and the time of
// the last but one of them.
// Kept: beside LastStroke of strokes: it is also made of a stroke that is only found yet and has no place in the store, and of which a break asks the mark.
#[derive(Clone, Copy)]
pub struct Last {
    pub mark: Mark,
    pub high: f64,
    pub low: f64,
    pub bars: usize,
    pub time: i64,
}

// What a feed would do. The view is cut at place `cut`, and the stroke found, if one is, counts its places from there. Where the last stroke
// breaks, its bars without the last two come back, and behind them the view from the place that `broken` has. Where none breaks, the view from
// the found stroke's end on is left. `left` is how many unfinished bars there are then.
#[derive(Clone, Copy)]
pub struct Plan {
    pub cut: usize,
    pub found: Option<FoundBi>,
    pub broken: Option<usize>,
    pub left: usize,
}

// The place of the found stroke's end, and 0 where none is found.
#[tactic(auto, unfolding(crate::specs::Code::FeedPlan::end_in))]
pub fn end_in(found: Option<FoundBi>) -> usize
    ensures { result ≡ end_in found }
{
    found.map_or(0, |f| f.end.place)
}

// How many merged bars the found stroke has, and 0 where none is found.
#[tactic(auto, unfolding(crate::specs::Code::FeedPlan::bars_made))]
pub fn bars_made(found: Option<FoundBi>) -> usize
    ensures { result ≡ bars_made found }
{
    found.map_or(0, |f| f.bars)
}

// The first place of the view from lo on whose time is not before t.
// Kept: tried, `(lo..end).find(|i| t <= view.candle(*i).time).unwrap_or(end)`. The laws of it close, but not the step from what a call of the closure answered to the
// test on the signed time in `times_in`.
fn skip(view: View<'_>, lo: usize, t: i64) -> usize
    requires { (places view < 4294967296) × (lo ≤ places view) }
    ensures { (result ≡ lo + place_of t (drop lo (times_in view.entry))) × (result ≤ places view.entry) }
{
    let end = view.len();
    for i in lo..end {
        if t <= view.candle(i).time {
            return i;
        }
    }
    end
}

// Whether the last stroke breaks where k is the last unfinished bar.
#[tactic(auto, unfolding(crate::specs::Code::FeedPlan::breaks_of, crate::specs::Code::FeedPlan::breaks_if))]
fn breaks(b: Last, k: Candle) -> bool
    ensures { result ≡ breaks_of b k }
{
    match b.mark {
        Mark::D => b.high < k.high,
        Mark::G => k.low < b.low,
    }
}

// The last stroke once what was found is put on.
#[tactic(auto, unfolding(crate::specs::Code::FeedPlan::last_with))]
fn last_with(found: Option<FoundBi>, b: Last) -> Last
    ensures { result ≡ last_with found b }
{
    found.map_or(
        b,
        |f| Last {
            mark: f.start.mark,
            high: arith::max(f.start.high, f.end.high),
            low: arith::min(f.start.low, f.end.low),
            bars: f.bars,
            time: f.end.time,
        },
    )
}

// No stroke breaks.
#[tactic(auto, unfolding(crate::specs::Code::FeedPlan::kept_of))]
fn kept_plan(cut: usize, found: Option<FoundBi>, total: usize) -> Plan
    requires { (cut + end_in found ≤ total) × (bars_made found ≤ total) × (total < 4294967296) }
    ensures value { result ≡ kept_of cut found total }
    ensures in_view { InView result total }
{
    Plan {
        cut,
        found,
        broken: None,
        left: total - (cut + end_in(found)),
    }
}

// No stroke was kept before: the view is cut, and check_bi asked from there on. Where nothing is cut off, the scan that the
// cut was read from is the one to ask. Before the first stroke nothing is cut off a series without fractals, which grows with every bar: the first `clear` windows
// of the store's rows, of which it is known, are not looked at again.
// Kept: `clear` is a number with its fact beside it, here and wherever a feed is asked: the store's rows are written while batch keeps the number,
// and a value that holds the fact would borrow these rows.
fn first_plan(view: View<'_>, minimum: usize, clear: usize) -> Plan
    requires few { places view < 4294967296 }
    requires none { NoFractals view.prices.now clear }
    ensures value { result ≡ plan_first minimum (bars_in view.entry) (places view.entry) }
    ensures in_view { InView result (places view.entry) }
{
    let total = view.len();
    let Some(s) = view.scan(0, clear) else {
        return kept_plan(0, None, total);
    };
    let cut = s.cut.place;
    if cut == 0 {
        return kept_plan(0, found_bi(s, minimum), total);
    }
    kept_plan(cut, view.check_bi(cut, minimum), total)
}

// A stroke was kept before: b, or the one that is found now, is tested against the last unfinished bar.
fn later_plan(view: View<'_>, b: Last, minimum: usize) -> Plan
    requires few { places view < 4294967296 }
    requires more { 0 < places view }
    requires long { Long b }
    ensures value { result ≡ plan_later minimum b (bars_in view.entry) (places view.entry) }
    ensures in_view { InView result (places view.entry) }
{
    let total = view.len();
    let found = view.check_bi(0, minimum);
    let last = last_with(found, b);
    if breaks(last, view.candle(total - 1)) {
        let join = skip(view, end_in(found), last.time);
        return Plan {
            cut: 0,
            found,
            broken: Some(join),
            left: last.bars - 2 + (total - join),
        };
    }
    kept_plan(0, found, total)
}

// What a feed would do where `last` is the last of the strokes that are kept, if one is, and the view has the unfinished bars after merging. The first `clear` windows of
// its store's rows hold no fractal.
pub fn plan_of(view: View<'_>, last: Option<Last>, minimum: usize, clear: usize) -> Plan
    requires few { places view < 4294967296 }
    requires long { IfSome last Long }
    requires none { NoFractals view.prices.now clear }
    ensures value { result ≡ plan_of minimum last (bars_in view.entry) }
    ensures in_view { InView result (places view.entry) }
{
    if view.len() < 3 {
        return kept_plan(0, None, view.len());
    }
    match last {
        None => first_plan(view, minimum, clear),
        Some(b) => later_plan(view, b, minimum),
    }
}

// Questions 11 and 12, where there are `total` unfinished bars after merging, and `used` bars of strokes.
pub fn refused(p: Plan, total: usize, used: usize, rooms: Rooms) -> Result<(), Question>
    requires { (used < 4294967296) × (bars_made p.found < 4294967296) }
    ensures { asked result ≡ refused_of p total rooms.unfinished used rooms.strokes }
{
    let room = rooms.unfinished;
    if room < total || room < p.left {
        return Err(Question::UnfinishedRoom);
    }
    if rooms.strokes < used + bars_made(p.found) {
        return Err(Question::StrokeRoom);
    }
    Ok(())
}
