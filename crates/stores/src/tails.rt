// What merging would give, without writing to a store: a short tail of bars in rows of one's own. The unfinished bars are seen as the
// store's but the last ones, and then the tail.
ghost use Rattle.std.specs.Prelude.{◌≡◌, ◌++◌, ◌+◌, ◌-◌, ◌<◌, ◌≤◌, length, take};
ghost use Rattle.stores.specs.Stores.{raw_bars};
ghost use Rattle.stores.specs.Code.StoreRows.{SizedRaw, bar_at};
ghost use Rattle.stores.specs.Code.TailRows.{rows_from, TailTakes};
ghost use Rattle.bars.specs.Code.MergedBars.{remove_include_bar};
ghost use Rattle.stores.specs.Columns.{raw_of, SameRaw};

use crate::RawColumnsMut;
use bars::{Bar, remove_include_bar};

impl<'a> RawColumnsMut<'a> {
    // b against the last of the m bars of the tail, whose bar before has the high k1. Returns how many bars the tail then has.
    fn include_last(&mut self, k1: f64, m: usize, b: Bar) -> usize
        requires { (0 < m) × (m < length self.old.times.now) × SizedRaw (raw_of self.old) (length self.old.times.now) }
        ensures tail { (take result (raw_bars (raw_of self.new)) ≡ take (m - 1) (raw_bars (raw_of self.old)) ++ remove_include_bar k1 (bar_at (raw_of self.old) (m - 1)) b) × (m ≤ result) × (result ≤ m + 1) × (rows_from result (raw_of self.new) ≡ rows_from result (raw_of self.old)) }
        ensures same { SameRaw self.old self.new }
    {
        let last = m - 1;
        let k2 = self.seen().bar(last);
        match remove_include_bar(k1, k2, b) {
            Some(bar) => {
                self.put_bar(last, bar);
                m
            }
            None => {
                self.put_bar(m, b);
                m + 1
            }
        }
    }

    // One more bar merged into the m bars of the tail that these columns are, behind the bar k where one stands before it.
    // Returns how many bars the tail then has; the rows from that place on stay as they were.
    // Kept: the whole bar k, of which only the high is asked: the list of bars that is promised (TailTakes) begins with it.
    pub fn merge_bar(&mut self, k: Option<Bar>, m: usize, b: Bar) -> usize
        requires { (m < length self.old.times.now) × SizedRaw (raw_of self.old) (length self.old.times.now) }
        ensures tail { TailTakes k (raw_of self.old) m b (raw_of self.new) result }
        ensures same { SameRaw self.old self.new }
    {
        match (m, k) {
            (0, _) => {
                self.put_bar(0, b);
                1
            }
            (1, None) => {
                self.put_bar(1, b);
                2
            }
            (1, Some(before)) => self.include_last(before.high, m, b),
            _ => {
                let before = self.seen().bar(m - 2);
                self.include_last(before.high, m, b)
            }
        }
    }
}
