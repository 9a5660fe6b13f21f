// The lent stores of raw bars and of merged bars. A store is one slice for each column, and a place is
// a row: what stands at it in every column. What a function is not said to change stays as it was,
// also beyond the count of the bars that are kept.
ghost use Rattle.std.specs.Prelude.{◌≡◌, [], ◌∷◌, ◌+◌, ◌≤◌, min, length, take, get_or, T};
ghost use Rattle.std.specs.Option.{option_to_list};
ghost use Rattle.stores.specs.Code.StoreRows.{SizedRaw, RoomRaw, RoomMerged, bar_at, new_bar_at, set_bar, copied_raw, CopiedInUse, BarWritten, rising, place_of};
ghost use Rattle.stores.specs.Stores.{raw_bars, with_first};
ghost use Rattle.bars.specs.Merging.{at_times};
ghost use Rattle.bars.specs.Code.MergedBars.{with_element};
ghost use Rattle.stores.specs.Columns.{raw_in, raw_of, merged_in, merged_of, SameRaw, SameMerged};

use super::rows;
use crate::{MergedColumns, MergedColumnsMut, RawColumns, RawColumnsMut};
use bars::{Bar, NewBar};

impl<'a> RawColumns<'a> {
    // The bar at a place.
    #[tactic(auto, unfolding(crate::specs::Code::StoreRows::bar_at, crate::specs::Stores::bar_of))]
    pub fn bar(self, at: usize) -> Bar
        requires { RoomRaw (raw_in self) (at + 1) }
        ensures { result ≡ bar_at (raw_in self.entry) at }
    {
        Bar::of(self.times[at], self.ids[at], self.prices[at])
    }

    // How many rows the columns have: as many as the shortest of them.
    pub fn rows(self) -> usize
        ensures { result ≡ min (min (length self.entry.times.now) (length self.entry.ids.now)) (length self.entry.prices.now) }
    {
        self.times.len().min(self.ids.len()).min(self.prices.len())
    }

    // The bar of time t among the first n, if there is one.
    // Kept: n beside the columns, since callers hold the whole store; and in find_time, since it is public and `named` is its third caller.
    pub fn named(self, n: usize, t: i64) -> Option<Bar>
        requires sized { SizedRaw (raw_in self) (length self.times.now) }
        requires fits { n ≤ length self.times.now }
        requires rise { T (rising (take n self.times.now)) }
        ensures { option_to_list result ≡ at_times (take n (raw_bars (raw_in self.entry))) (t ∷ []) }
    {
        let p = find_time(self.times, n, t);
        if p < n {
            if t < self.times[p] {
                return None;
            }
            return Some(self.bar(p));
        }
        None
    }
}

impl<'a> RawColumnsMut<'a> {
    // A bar is appended to the first n by putting it at place n.
    #[tactic(auto, unfolding(crate::specs::Code::StoreRows::set_bar))]
    pub fn put_bar(&mut self, at: usize, b: Bar)
        requires { RoomRaw (raw_of self.old) (at + 1) }
        ensures store { raw_of self.new ≡ set_bar (raw_of self.old) at b }
        ensures same { SameRaw self.old self.new }
    {
        self.times[at] = b.time;
        self.ids[at] = b.id;
        self.prices[at] = b.prices();
    }

    // n bars of another store, from place `from` on, to place `at` of this store.
    pub fn join(&mut self, at: usize, other: RawColumns<'_>, from: usize, n: usize)
        requires fact_1 { RoomRaw (raw_in other) (from + n) }
        requires fact_2 { RoomRaw (raw_of self.old) (at + n) }
        ensures store { raw_of self.new ≡ copied_raw (raw_of self.old) at (raw_in other.entry) from n }
        ensures same { SameRaw self.old self.new }
    {
        rows::join_rows(other.times, from, self.times, at, n);
        rows::join_rows(other.ids, from, self.ids, at, n);
        rows::join_rows(other.prices, from, self.prices, at, n);
    }

    // The n bars from place `from` on to place `at`, up or down.
    pub fn move_bars(&mut self, from: usize, at: usize, n: usize)
        requires fact_1 { RoomRaw (raw_of self.old) (from + n) }
        requires fact_2 { RoomRaw (raw_of self.old) (at + n) }
        ensures store { raw_of self.new ≡ copied_raw (raw_of self.old) at (raw_of self.old) from n }
        ensures same { SameRaw self.old self.new }
    {
        rows::move_rows(self.times, from, at, n);
        rows::move_rows(self.ids, from, at, n);
        rows::move_rows(self.prices, from, at, n);
    }
}

impl<'a> MergedColumns<'a> {
    // The merged bar at a place.
    #[tactic(auto, unfolding(crate::specs::Code::StoreRows::new_bar_at))]
    pub fn new_bar(self, at: usize) -> NewBar
        requires { RoomMerged (merged_in self) (at + 1) }
        ensures { result ≡ new_bar_at (merged_in self.entry) at }
    {
        NewBar {
            bar: self.bars().bar(at),
            count: self.counts[at],
            elements: self.elements[at],
        }
    }
}

// Kept: the three columns that raw bars have too are written here again. Tried: a RawColumnsMut made of these three fields. What it holds afterwards
// is then no longer known to be the caller's slices, so that `SameMerged` didn't close.
// Of a row of elements only what is in use is copied: what the places beyond a count hold afterwards is not said.
impl<'a> MergedColumnsMut<'a> {
    // This bar at a place, with the first `count` elements of those that stand there, of which the first 100 stay, and then one of
    // this time: of the row of elements one place is written. With a count of 0 the bar has that element alone.
    pub fn put_with_element(&mut self, at: usize, bar: Bar, count: usize, time: i64)
        requires { RoomMerged (merged_of self.old) (at + 1) }
        ensures store { BarWritten (merged_of self.old) at (with_element bar (with_first bar count (get_or self.old.elements.now at [])) time) (merged_of self.new) }
        ensures same { SameMerged self.old self.new }
    {
        self.times[at] = bar.time;
        self.ids[at] = bar.id;
        self.prices[at] = bar.prices();
        rows::put_element(self.counts, self.elements, at, count, time);
    }

    // n bars of another store, from place `from` on, to place `at` of this store.
    pub fn join(&mut self, at: usize, other: MergedColumns<'_>, from: usize, n: usize)
        requires { (RoomMerged (merged_in other) (from + n)) × (RoomMerged (merged_of self.old) (at + n)) }
        ensures store { CopiedInUse (merged_of self.old) at (merged_in other.entry) from n (merged_of self.new) }
        ensures same { SameMerged self.old self.new }
    {
        rows::join_rows(other.times, from, self.times, at, n);
        rows::join_rows(other.ids, from, self.ids, at, n);
        rows::join_rows(other.prices, from, self.prices, at, n);
        rows::join_in_use(
            other.counts,
            other.elements,
            from,
            self.counts,
            self.elements,
            at,
            n,
        );
    }

    // The n bars from place `from` on to place `at`, up or down.
    pub fn move_bars(&mut self, from: usize, at: usize, n: usize)
        requires { (RoomMerged (merged_of self.old) (from + n)) × (RoomMerged (merged_of self.old) (at + n)) }
        ensures store { CopiedInUse (merged_of self.old) at (merged_of self.old) from n (merged_of self.new) }
        ensures same { SameMerged self.old self.new }
    {
        rows::move_rows(self.times, from, at, n);
        rows::move_rows(self.ids, from, at, n);
        rows::move_rows(self.prices, from, at, n);
        rows::move_in_use(self.counts, self.elements, from, at, n);
    }
}

// ---- a time among the kept ones

// The first of the first n places whose time is not before t, n where there is none: where one of
// the first n bars has the time t, its place. Each turn halves the places that are left.
pub fn find_time(times: &[i64], n: usize, t: i64) -> usize
    requires fact_1 { n ≤ length times.now }
    requires fact_2 { T (rising (take n times.now)) }
    ensures { result ≡ place_of t (take n times.now) }
{
    times[..n].partition_point(|x| *x < t)
}
