// What merging a fed bar would give, without writing to a store: the unfinished bars are then the first bars of the unfinished store,
// and behind them a short tail of bars.
ghost use Rattle.std.specs.Prelude.{[], ◌∷◌, ◌≡◌, ◌<◌, ◌≤◌, length, take};
ghost use Rattle.stores.specs.Columns.{raw_in, merged_in};
ghost use Rattle.stores.specs.Lent.{raw_held, raw_before, raw_after};
ghost use Rattle.stores.specs.Stores.{raw_part, raw_bars, merged_bars};
ghost use Rattle.stores.specs.Code.StoreRows.{SizedRaw};
ghost use Rattle.stores.specs.Code.TailRows.{TailTakes};
ghost use Rattle.bars.specs.Merging.{at_times};
ghost use Rattle.bars.specs.Code.MergedBars.{merge_bars, merge_bars_all};
ghost use Rattle.strokes.specs.Code.BarSteps.{merged_again};
ghost use Rattle.check_bi.specs.Code.View.{times_in, rows_in, view};
ghost use Rattle.asking.specs.Code.MergedTail.{Holds, IsEmpty, CanTail, HasTail, TailGrown, NamedRaw, CanMergeAgain, bars_only, last_kept, rows_of, shown};

use bars::Bar;
use check_bi::View;
use stores::{MergedColumns, RawColumns, RawColumnsMut};

// The last of the first n bars, if there is one.
pub fn last_kept(bars: RawColumns<'_>, n: usize) -> Option<Bar>
    requires { Holds (raw_in bars) n }
    ensures { result ≡ last_kept n (raw_in bars.entry) }
{
    if n == 0 {
        return None;
    }
    Some(bars.bar(n - 1))
}

// The bar b, merged into the first m bars of these rows, before which the bar k stands, if one does. Returns how many bars they then are.
// Kept: loose rows. Tried: columns made of a tail's own rows, `RawColumnsMut { times: &mut self.times, .. }`. Nothing then says that the rows end as the
// columns end, while of rows that are lent to a function that is known.
fn merge_rows(
    times: &mut [i64],
    ids: &mut [i32],
    prices: &mut [[f64; 6]],
    k: Option<Bar>,
    m: usize,
    b: Bar,
) -> usize
    requires { (m < length times.old) × SizedRaw (raw_held times ids prices) (length times.old) }
    ensures { TailTakes k (raw_before times ids prices) m b (raw_after times ids prices) result }
{
    let mut columns = RawColumnsMut { times, ids, prices };
    columns.merge_bar(k, m, b)
}

// Behind the first `base` bars of the unfinished store, `rows` bars in N rows of their own.
#[derive(Clone, Copy, Drop)]
pub struct Tail<const N: usize> {
    times: [i64; N],
    ids: [i32; N],
    prices: [[f64; 6]; N],
    base: usize,
    rows: usize,
}

impl<const N: usize> Tail<N> {
    // Behind no bar, and without one.
    pub fn new() -> Tail<N>
        ensures { IsEmpty result }
    {
        Tail {
            times: [0; N],
            ids: [0; N],
            prices: [[0.0; 6]; N],
            base: 0,
            rows: 0,
        }
    }

    // One bar more, merged into those of the tail. k is the bar that stands before the tail, if one does.
    fn push(&mut self, k: Option<Bar>, b: Bar)
        requires { SizedRaw (rows_of self.old) N × (self.old.rows < N) }
        ensures tail { TailTakes k (rows_of self.old) self.old.rows b (rows_of self.new) self.new.rows }
        ensures sized { SizedRaw (rows_of self.new) N }
        ensures base { self.new.base ≡ self.old.base }
    {
        self.rows = merge_rows(
            &mut self.times,
            &mut self.ids,
            &mut self.prices,
            k,
            self.rows,
            b,
        );
    }

    // The tail begins with the last of the first n bars of the store, if there is one.
    fn start(&mut self, bars: RawColumns<'_>, n: usize)
        requires fresh { IsEmpty self.old × (1 ≤ N) }
        requires holds { Holds (raw_in bars) n }
        ensures { HasTail (raw_in bars.entry) self.new (take n (raw_bars (raw_in bars.entry))) × (self.new.base ≤ n) × (self.new.rows ≤ 1) }
    {
        if let Some(last) = last_kept(bars, n) {
            self.base = n - 1;
            self.push(None, last);
        }
    }

    // The bar b, merged into the bars that are shown.
    fn merge(&mut self, bars: RawColumns<'_>, b: Bar)
        requires { CanTail (raw_in bars) self.old 1 }
        ensures { TailGrown (raw_in bars.entry) self.old 1 self.new (merge_bars (shown (raw_in bars.entry) self.old) b) }
    {
        let before = last_kept(bars, self.base);
        self.push(before, b);
    }

    // The raw bar of time t, if one of the first `kept` has it, merged into the bars that are shown.
    fn merge_named(&mut self, bars: RawColumns<'_>, raw: RawColumns<'_>, kept: usize, t: i64)
        requires named { NamedRaw (raw_in raw) (length raw.times.now) kept }
        requires tail { CanTail (raw_in bars) self.old 1 }
        ensures { TailGrown (raw_in bars.entry) self.old 1 self.new (merge_bars_all (shown (raw_in bars.entry) self.old) (at_times (take kept (raw_bars (raw_in raw.entry))) (t ∷ []))) }
    {
        if let Some(b) = raw.named(kept, t) {
            self.merge(bars, b);
        }
    }

    // The raw bars that these times name, merged one after the other.
    fn merge_elements(
        &mut self,
        bars: RawColumns<'_>,
        raw: RawColumns<'_>,
        kept: usize,
        elements: &[i64],
    )
        requires named { NamedRaw (raw_in raw) (length raw.times.now) kept }
        requires tail { CanTail (raw_in bars) self.old (length elements.now) }
        ensures { TailGrown (raw_in bars.entry) self.old (length elements.entry.now) self.new (merge_bars_all (shown (raw_in bars.entry) self.old) (at_times (take kept (raw_bars (raw_in raw.entry))) elements.now)) }
    {
        for t in elements {
            self.merge_named(bars, raw, kept, *t);
        }
    }

    // What a later bar b makes of the first `count` bars of the store.
    pub fn later(&mut self, bars: RawColumns<'_>, count: usize, b: Bar)
        requires fresh { IsEmpty self.old × (2 ≤ N) }
        requires holds { Holds (raw_in bars) count }
        ensures { HasTail (raw_in bars.entry) self.new (merge_bars (take count (raw_bars (raw_in bars.entry))) b) × (self.new.base ≤ count) × (self.new.rows ≤ 2) }
    {
        self.start(bars, count);
        self.merge(bars, b);
    }

    // What a bar b with the last time makes of the first `count` unfinished bars: the last of them goes, and the raw bars that its elements but the last name
    // are merged again, and then b.
    pub fn again(
        &mut self,
        raw: RawColumns<'_>,
        kept: usize,
        unfinished: MergedColumns<'_>,
        count: usize,
        b: Bar,
    )
        requires fresh { IsEmpty self.old × (102 ≤ N) }
        requires merges { NamedRaw (raw_in raw) (length raw.times.now) kept × CanMergeAgain (merged_in unfinished) count }
        ensures { HasTail (raw_part (merged_in unfinished.entry)) self.new (bars_only (merged_again (take kept (raw_bars (raw_in raw.entry))) (take count (merged_bars (merged_in unfinished.entry))) b)) × (self.new.base ≤ count) }
    {
        let bars = unfinished.bars();
        let at = count - 1;
        let newest = unfinished.new_bar(at);
        self.start(bars, at);
        self.merge_elements(bars, raw, kept, &newest.elements[..newest.count - 1]);
        self.merge(bars, b);
    }

    // The bars that are shown, where they lie.
    pub fn view<'a>(&'a self, bars: RawColumns<'a>) -> View<'a>
        requires { CanTail (raw_in bars) self.now 0 }
        ensures times { times_in result ≡ view self.now.base bars.entry.times.now self.now.rows self.now.times }
        ensures prices { rows_in result ≡ view self.now.base bars.entry.prices.now self.now.rows self.now.prices }
        ensures store { result.prices.now ≡ take self.now.base bars.entry.prices.now }
    {
        View {
            times: &bars.times[..self.base],
            prices: &bars.prices[..self.base],
            tail_times: &self.times[..self.rows],
            tail_prices: &self.prices[..self.rows],
        }
    }
}
