// Questions 5 to 12 of a feed, asked of the stand, the lent stores and the bar. Nothing is written: a feed writes what the plan says once
// all are answered "yes".
ghost use Rattle.std.specs.Prelude.{◌≡◌, IfSome, true, false, take, map};
ghost use Rattle.bars.specs.Lists.{last};
ghost use Rattle.stores.specs.Stores.{raw_part, raw_bars};
ghost use Rattle.stores.specs.Columns.{raw_in, merged_in};
ghost use Rattle.check_bi.specs.Code.Windows.{NoFractals};
ghost use Rattle.strokes.specs.StateRead.{settings_of, state_of, bar_counts, total};
ghost use Rattle.strokes.specs.Columns.{stores_in};
ghost use Rattle.sound.specs.StandSound.{IsSound};
ghost use Rattle.asking.specs.Code.FeedPlan.{Long};
ghost use Rattle.asking.specs.Code.MergedTail.{Holds, shown};
ghost use Rattle.asking.specs.Code.Asked.{AskedOf};
ghost use Rattle.asking.specs.Code.AskSteps.{EarlyOf, last_from, last_in, HasLast, CanPlan, bar_candle, TriedWith, CanTry, TriedOf};

use crate::merged_tail::{Tail, last_kept};
use crate::plan::{Last, Plan, plan_of, refused};
use bars::{Bar, Question};
use machine::Mark;
use stores::RawColumns;
use strokes::{LastStroke, Stand, StoreColumns, last_stroke_within, total_bars};

// What is asked: whether the bar is later than the newest raw bar, and what the feed would do.
// Kept: `later` as a bool, since the machine's step takes a Bool (merged_with), and so does the writing: an enum would be turned into that in each contract.
#[derive(Clone, Copy)]
pub struct Asked {
    pub later: bool,
    pub plan: Plan,
}

// Questions 5 to 10, where the first `count` raw bars are kept and `room` fit: whether the bar is later than the newest of them.
fn ask_early(raw: RawColumns<'_>, count: usize, room: usize, b: Bar) -> Result<bool, Question>
    requires { Holds (raw_in raw) count }
    ensures { EarlyOf (last (take count (raw_bars (raw_in raw.entry)))) count room b result }
{
    let Some(newest) = last_kept(raw, count) else {
        bars::question_of_bar(b)?;
        return if count < room {
            Ok(true)
        } else {
            Err(Question::RawRoom)
        };
    };
    bars::question_after(Some(newest.time), b)?;
    let later = newest.time < b.time;
    if later && room <= count {
        return Err(Question::RawRoom);
    }
    Ok(later)
}

impl From<LastStroke> for Last {
    ghost from_gives = { λ k r. r ≡ last_from k };

    fn from(k: LastStroke) -> Last {
        Last {
            mark: Mark::from(k.direction),
            high: k.high,
            low: k.low,
            bars: k.bars,
            time: k.time,
        }
    }
}

// Of the last stroke that is kept, if there is one, what its break goes by.
fn last_of(stand: Stand, stores: StoreColumns<'_>, used: usize) -> Option<Last>
    requires last { HasLast stand stores.strokes.times.now stores.fractals.prices.now }
    requires used { used ≡ total (bar_counts stand) }
    ensures value { result ≡ last_in stand.strokes stand stores.entry.strokes.times.now stores.entry.fractals.prices.now }
    ensures long { IfSome result Long }
{
    if stand.strokes == 0 {
        return None;
    }
    let k = last_stroke_within(stand, stores.strokes.times, stores.fractals.prices, used);
    Some(Last::from(k))
}

// What the feed would do once the unfinished bars are those that the tail shows, and questions 11 and 12 of that.
fn try_tail<const N: usize>(
    stand: Stand,
    stores: StoreColumns<'_>,
    tail: &Tail<N>,
    clear: usize,
) -> Result<Plan, Question>
    requires plan { CanPlan stand (stores_in stores) tail.now }
    requires clear { NoFractals stores.unfinished.prices.now clear }
    ensures { TriedWith stand (map bar_candle (shown (raw_part (merged_in stores.entry.unfinished)) tail.now)) stores.entry.strokes.times.now stores.entry.fractals.prices.now result }
{
    let used = total_bars(stand.bars, stand.strokes);
    let last = last_of(stand, stores, used);
    let view = tail.view(stores.unfinished.bars());
    let plan = plan_of(view, last, stand.minimum, clear);
    refused(plan, view.len(), used, stand.rooms)?;
    Ok(plan)
}

// What the feed of a later bar would do. Its tail holds two bars at most, so that few rows are set up: this is the way of most bars.
fn try_later(stand: Stand, stores: StoreColumns<'_>, b: Bar, clear: usize) -> Result<Plan, Question>
    requires bar { CanTry true stand (stores_in stores) }
    requires clear { NoFractals stores.unfinished.prices.now clear }
    ensures { TriedOf true stand (stores_in stores.entry) b result }
{
    let mut tail: Tail<3> = Tail::new();
    tail.later(stores.unfinished.bars(), stand.unfinished, b);
    try_tail(stand, stores, &tail, clear)
}

// What the feed of a bar with the last time would do.
fn try_again(stand: Stand, stores: StoreColumns<'_>, b: Bar, clear: usize) -> Result<Plan, Question>
    requires bar { CanTry false stand (stores_in stores) }
    requires clear { NoFractals stores.unfinished.prices.now clear }
    ensures { TriedOf false stand (stores_in stores.entry) b result }
{
    let mut tail: Tail<103> = Tail::new();
    tail.again(
        stores.raw,
        stand.raw,
        stores.unfinished,
        stand.unfinished,
        b,
    );
    try_tail(stand, stores, &tail, clear)
}

// Questions 5 to 12, of a stand that is sound: question 4 has passed. For the feed above, which proves just that before it calls; no other caller needs it. The first
// `clear` windows of the unfinished bars hold no fractal.
pub fn ask(stand: Stand, stores: StoreColumns<'_>, b: Bar, clear: usize) -> Result<Asked, Question>
    requires sound { IsSound stand (stores_in stores) }
    requires clear { NoFractals stores.unfinished.prices.now clear }
    ensures { AskedOf (settings_of stand) (state_of stand (stores_in stores.entry)) b result }
{
    let later = ask_early(stores.raw, stand.raw, stand.rooms.raw, b)?;
    if later {
        let plan = try_later(stand, stores, b, clear)?;
        return Ok(Asked { later, plan });
    }
    let plan = try_again(stand, stores, b, clear)?;
    Ok(Asked { later, plan })
}
