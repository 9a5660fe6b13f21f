// A list of bars fed to a fresh analyzer in one call.
ghost use Rattle.std.specs.Prelude.{min};
ghost use Rattle.stores.specs.Stores.{raw_bars};
ghost use Rattle.stores.specs.Columns.{raw_in};
ghost use Rattle.strokes.specs.Columns.{written_in, SameColumns};
ghost use Rattle.feed.specs.Answers.{FeedAnswers};
ghost use Rattle.from_fresh.specs.FromFresh.{FromFresh};
ghost use Rattle.from_fresh.specs.Code.ClearWindows.{Clear};
ghost use Rattle.batch.specs.BatchCalls.{BatchIs, BatchFed};
ghost use Rattle.batch.specs.Code.BatchSteps.{CanBatch};

use bars::{Bar, Question};
use feed::Events;
use from_fresh::{Counts, clear_after, update_from_fresh};
use sound::Settings;
use stores::{MergedColumnsMut, RawColumns, RawColumnsMut};
use strokes::{FractalColumnsMut, Stand, StoreColumns};

// What the batch call answers: the stand after the last bar that was accepted, how many bars were accepted, the strokes made, broken and shed, and what the next bar was refused with, if one was.
#[derive(Clone, Copy)]
pub struct BatchAnswer {
    pub stand: Stand,
    pub fed: usize,
    pub events: Events,
    pub refused: Option<Question>,
}

// One bar more, and the windows that are known to hold no fractal after it.
// Kept: the stand and four values to be written, here and below: strokes/lent_columns.rt says why no value has them all. `clear` is beside them,
// since it is kept from bar to bar, while the rows that it speaks of are written.
fn feed_next(
    stand: &mut Stand,
    raw: &mut RawColumnsMut<'_>,
    unfinished: &mut MergedColumnsMut<'_>,
    strokes: &mut MergedColumnsMut<'_>,
    fractals: &mut FractalColumnsMut<'_>,
    b: Bar,
    clear: &mut usize,
) -> Result<Events, Question>
    requires from_fresh { FromFresh stand.old (written_in raw.old unfinished.old strokes.old fractals.old) }
    requires clear { Clear stand.old (written_in raw.old unfinished.old strokes.old fractals.old) clear.old }
    ensures feed { FeedAnswers stand.old (written_in raw.old unfinished.old strokes.old fractals.old) b result stand.new (written_in raw.new unfinished.new strokes.new fractals.new) }
    ensures clear { Clear stand.new (written_in raw.new unfinished.new strokes.new fractals.new) clear.new }
    ensures same { SameColumns raw.old unfinished.old strokes.old fractals.old raw.new unfinished.new strokes.new fractals.new }
{
    let before = Counts::of(stand);
    let events = update_from_fresh(stand, raw, unfinished, strokes, fractals, b, *clear)?;
    let after = Counts::of(stand);
    let u = unfinished.seen();
    *clear = clear_after(before, after, events.made, u.prices, *clear);
    Ok(events)
}

// The first n bars one by one, from a fresh analyzer.
// Kept: two answers, since one behind the loop would need the refusal and the place carried out of it.
// Kept: by place, since the place is what a refusal tells (`fed`), and a bar is read from three columns.
fn feed_from(
    stand: Stand,
    raw: &mut RawColumnsMut<'_>,
    unfinished: &mut MergedColumnsMut<'_>,
    strokes: &mut MergedColumnsMut<'_>,
    fractals: &mut FractalColumnsMut<'_>,
    bars: RawColumns<'_>,
    n: usize,
) -> BatchAnswer
    requires { CanBatch stand (written_in raw.old unfinished.old strokes.old fractals.old) (raw_in bars) n }
    ensures fed { BatchFed stand (written_in raw.old unfinished.old strokes.old fractals.old) (raw_bars (raw_in bars.entry)) result (written_in raw.new unfinished.new strokes.new fractals.new) }
    ensures same { SameColumns raw.old unfinished.old strokes.old fractals.old raw.new unfinished.new strokes.new fractals.new }
{
    let mut kept = stand;
    let mut events = Events::none();
    let mut clear = 0;
    for fed in 0..n {
        let b = bars.bar(fed);
        match feed_next(&mut kept, raw, unfinished, strokes, fractals, b, &mut clear) {
            Ok(more) => events = events.plus(more),
            Err(q) => {
                return BatchAnswer {
                    stand: kept,
                    fed,
                    events,
                    refused: Some(q),
                };
            }
        }
    }
    BatchAnswer {
        stand: kept,
        fed: n,
        events,
        refused: None,
    }
}

// A fresh analyzer for the lent stores that is fed the bars in the columns `bars`, as many as the shortest of these has, up to the first that is refused. Where the analyzer itself is refused, nothing is
// written. Of question 4 it asks for each bar the clause on the newest raw bar: the other clauses hold.
pub fn feed_all(
    settings: Settings,
    raw: &mut RawColumnsMut<'_>,
    unfinished: &mut MergedColumnsMut<'_>,
    strokes: &mut MergedColumnsMut<'_>,
    fractals: &mut FractalColumnsMut<'_>,
    bars: RawColumns<'_>,
) -> Result<BatchAnswer, Question>
    ensures batch { BatchIs settings.minimum settings.most settings.power settings.ratio (written_in raw.old unfinished.old strokes.old fractals.old) (raw_bars (raw_in bars.entry)) result (written_in raw.new unfinished.new strokes.new fractals.new) }
    ensures same { SameColumns raw.old unfinished.old strokes.old fractals.old raw.new unfinished.new strokes.new fractals.new }
{
    let stores = StoreColumns::of(raw, unfinished, strokes, fractals);
    let stand = sound::new_stand(settings, stores)?;
    Ok(feed_from(stand, raw, unfinished, strokes, fractals, bars, bars.rows()))
}
