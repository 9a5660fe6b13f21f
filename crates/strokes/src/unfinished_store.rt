// The writing steps of a feed on the unfinished store. Those of the stand hand back how many unfinished bars there are then, and not the stand, which would be copied whole. Each also says that no bar comes to have more than 101 elements.
ghost use Rattle.std.specs.Prelude.{[], ◌∷◌, ◌+◌, ◌≤◌, drop, T};
ghost use Rattle.stores.specs.Code.StoreRows.{SizedMerged};
ghost use Rattle.bars.specs.Merging.{merge_in, merge_all, at_times};
ghost use Rattle.machine.specs.Break.{joined};
ghost use Rattle.strokes.specs.Code.BarSteps.{HasUnfinished, CanMerge, RisingRaw, LastHas, CanJoin, merged_again, kept_raw, kept_unfinished, with_unfinished, without_last, stored_stroke};
ghost use Rattle.strokes.specs.StateRead.{elements_sized};
ghost use Rattle.strokes.specs.Code.ElementCounts.{StaySized};
ghost use Rattle.stores.specs.Columns.{raw_in, merged_in, merged_of, SameMerged};

use crate::{Stand, count_before};
use bars::Bar;
use stores::{MergedColumns, MergedColumnsMut, RawColumns};

impl Stand {
    // The unfinished bars begin at place k: those before it go. This is the first stroke's cut, and the rest after a stroke. Mostly there are none, and nothing is moved.
    pub fn begin_at(self, unfinished: &mut MergedColumnsMut<'_>, k: usize) -> usize
        requires fact_1 { SizedMerged (merged_of unfinished.old) self.rooms.unfinished }
        requires fact_2 { self.unfinished ≤ self.rooms.unfinished }
        requires fact_3 { k ≤ self.unfinished }
        ensures has { HasUnfinished self (with_unfinished self result) (merged_of unfinished.new) (drop k (kept_unfinished self (merged_of unfinished.old))) }
        ensures sized { StaySized self.unfinished (merged_of unfinished.old) result (merged_of unfinished.new) }
        ensures same { SameMerged unfinished.old unfinished.new }
    {
        if k == 0 {
            return self.unfinished;
        }
        let left = self.unfinished - k;
        unfinished.move_bars(k, 0, left);
        left
    }

    // A bar that passed its questions is merged into the unfinished bars. Where it is merged with the last of them, that bar's elements stay
    // where they are, and one is put behind them.
    // Kept: a bar is put behind the others in two places. With an Option of the merged bar first and one match behind it, the test for two bars would
    // stand in the first, and the place of the last bar would be worked out in both.
    pub fn put_merged(self, unfinished: &mut MergedColumnsMut<'_>, b: Bar) -> usize
        requires { CanMerge self (merged_of unfinished.old) (merge_in (kept_unfinished self (merged_of unfinished.old)) b) }
        ensures has { HasUnfinished self (with_unfinished self result) (merged_of unfinished.new) (merge_in (kept_unfinished self (merged_of unfinished.old)) b) }
        ensures sized { StaySized self.unfinished (merged_of unfinished.old) result (merged_of unfinished.new) }
        ensures same { SameMerged unfinished.old unfinished.new }
    {
        let n = self.unfinished;
        if n < 2 {
            unfinished.put_with_element(n, b, 0, b.time);
            return n + 1;
        }
        let last = n - 1;
        let bars = unfinished.seen().bars();
        let k1 = bars.bar(n - 2);
        let k2 = bars.bar(last);
        if let Some(bar) = bars::remove_include_bar(k1.high, k2, b) {
            let count = unfinished.counts[last];
            unfinished.put_with_element(last, bar, count, b.time);
            return n;
        }
        unfinished.put_with_element(n, b, 0, b.time);
        n + 1
    }

    // The raw bar of time t, if one is kept, is merged into the unfinished bars.
    fn put_named(self, raw: RawColumns<'_>, unfinished: &mut MergedColumnsMut<'_>, t: i64) -> usize
        requires fact_1 { RisingRaw self (raw_in raw) }
        requires fact_2 { CanMerge self (merged_of unfinished.old) (merge_all (kept_unfinished self (merged_of unfinished.old)) (at_times (kept_raw self (raw_in raw)) (t ∷ []))) }
        ensures has { HasUnfinished self (with_unfinished self result) (merged_of unfinished.new) (merge_all (kept_unfinished self (merged_of unfinished.old)) (at_times (kept_raw self (raw_in raw.entry)) (t ∷ []))) }
        ensures sized { StaySized self.unfinished (merged_of unfinished.old) result (merged_of unfinished.new) }
        ensures same { SameMerged unfinished.old unfinished.new }
    {
        match raw.named(self.raw, t) {
            Some(b) => self.put_merged(unfinished, b),
            None => self.unfinished,
        }
    }

    // A bar with the last time: the last unfinished bar is taken off, and its elements but the last go through merging again, and then b.
    // Only elements that name kept raw bars do. The raw store still has the bar that b replaces.
    pub fn put_again(
        self,
        raw: RawColumns<'_>,
        unfinished: &mut MergedColumnsMut<'_>,
        b: Bar,
    ) -> usize
        requires fact_1 { RisingRaw self (raw_in raw) }
        requires fact_2 { LastHas self (merged_of unfinished.old) }
        requires fact_3 { CanMerge self (merged_of unfinished.old) (merged_again (kept_raw self (raw_in raw)) (kept_unfinished self (merged_of unfinished.old)) b) }
        ensures has { HasUnfinished self (with_unfinished self result) (merged_of unfinished.new) (merged_again (kept_raw self (raw_in raw.entry)) (kept_unfinished self (merged_of unfinished.old)) b) }
        ensures sized { StaySized self.unfinished (merged_of unfinished.old) result (merged_of unfinished.new) }
        ensures same { SameMerged unfinished.old unfinished.new }
    {
        let at = self.unfinished - 1;
        let newest = unfinished.seen().new_bar(at);
        let others = &newest.elements[..newest.count - 1];
        let mut stand = Stand {
            unfinished: at,
            ..self
        };
        for time in others {
            stand.unfinished = stand.put_named(raw, unfinished, *time);
        }
        stand.put_merged(unfinished, b)
    }

    // The last stroke breaks. Its bars, of which there are `rows`, stand in the stroke store from place `at` on. All but the last two
    // come to the beginning, and the unfinished bars from the time of the last but one on stand behind them.
    pub fn join_broken(
        self,
        unfinished: &mut MergedColumnsMut<'_>,
        strokes: MergedColumns<'_>,
        at: usize,
        rows: usize,
    ) -> usize
        requires { CanJoin self (merged_of unfinished.old) (merged_in strokes) at rows }
        ensures has { HasUnfinished (without_last self) (with_unfinished (without_last self) result) (merged_of unfinished.new) (joined (stored_stroke (merged_in strokes.entry) at rows) (kept_unfinished self (merged_of unfinished.old))) }
        ensures sized { T (elements_sized (at + rows) (merged_in strokes.entry)) → StaySized self.unfinished (merged_of unfinished.old) result (merged_of unfinished.new) }
        ensures same { SameMerged unfinished.old unfinished.new }
    {
        let n = self.unfinished;
        let front = rows - 2;
        let t = strokes.times[at + front];
        let j = count_before(unfinished.seen().times, n, t);
        let left = n - j;
        unfinished.move_bars(j, front, left);
        unfinished.join(0, strokes, at, front);
        front + left
    }
}
