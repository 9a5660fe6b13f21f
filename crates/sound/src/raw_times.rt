// The times of the raw bars that are kept, among which the elements of merged bars are sought.
ghost use Rattle.std.specs.Prelude.{◌≡◌, ◌≤◌, length, take, T};
ghost use Rattle.std.specs.Option.{is_some};
ghost use Rattle.bars.specs.Lists.{every};
ghost use Rattle.stores.specs.Code.StoreRows.{rising, place_of};
ghost use Rattle.sound.specs.Code.SoundStand.{at_place, is_time, named_rows};

use stores::MergedColumns;

// They rise, and are no more than a store has places.
#[derive(Clone, Copy, Drop)]
pub struct RawTimes<'a> {
    pub times: &'a [i64],
    ghost few: { length times.now ≤ 65536 },
    ghost rise: { T (rising times.now) },
}

impl<'a> RawTimes<'a> {
    // Whether the raw time at place p, if any, is t.
    // Kept: a test of the place before the time: `ts.get(p) == Some(&t)` is as long, and makes an Option of a reference to be compared with another.
    fn is_at(self, p: usize, t: i64) -> bool
        ensures { result ≡ at_place self.entry.times.now p t }
    {
        let ts = self.times;
        p < ts.len() && ts[p] == t
    }

    // The place of t among the raw times, which rise. It mostly stands at `from`, the place after that of the element before it.
    fn seek(self, t: i64, from: usize) -> usize
        ensures { result ≡ place_of t self.entry.times.now }
    {
        if self.is_at(from, t) {
            return from;
        }
        let ts = self.times;
        stores::find_time(ts, ts.len(), t)
    }

    // Whether elements are raw times, sought one by one: the place after the last of them, if they all are. The next ones mostly stand
    // there. A wrong place costs time only.
    // Kept: a loop that carries the next place. A try_fold promises the run of its steps, and to tell from it that each element was found is as long as this loop.
    fn each_named(self, elements: &[i64], from: usize) -> Option<usize>
        ensures { is_some result ≡ every (is_time self.entry.times.now) elements.now }
    {
        let mut next = from;
        for t in elements {
            let p = self.seek(*t, next);
            if !self.is_at(p, *t) {
                return None;
            }
            next = p + 1;
        }
        Some(next)
    }

    // The first `count` elements of a row. They mostly follow one another from `from` on.
    fn row_named(self, row: &[i64], count: usize, from: usize) -> Option<usize>
        ensures { is_some result ≡ every (is_time self.entry.times.now) (take count row.now) }
    {
        let ts = self.times;
        let elements = &row[..count.min(row.len())];
        if from <= ts.len() && ts[from..].starts_with(elements) {
            return Some(from + elements.len());
        }
        self.each_named(elements, from)
    }

    // The elements of all rows, and the place that the last row was looked for at: the next stroke's rows mostly start with that row
    // again.
    // Kept: no walk shared with asking's merge_elements, since the place that one search ends at is where the next begins.
    // Kept: by index: with `zip` a row and its count would be a pair of references, and the two places would be carried all the same.
    pub fn rows_named(self, bars: MergedColumns<'_>, from: usize) -> Option<usize>
        requires { length bars.counts.now ≡ length bars.elements.now }
        ensures { is_some result ≡ named_rows self.entry.times.now bars.entry.counts.now bars.entry.elements.now }
    {
        let mut first = from;
        let mut next = from;
        for i in 0..bars.counts.len() {
            first = next;
            next = self.row_named(&bars.elements[i], bars.counts[i], next)?;
        }
        Some(first)
    }
}
