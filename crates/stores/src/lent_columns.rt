// The columns of a lent store as one value: lent to be read, and lent to be written. Lent columns are the caller's: no row is copied, and none is owned here.
// Kept: a slice for each column, as the C interface lends them.
// Kept: that columns are as long as each other (`SizedRaw`, `SizedMerged`, and `Room..` for a place) is asked where they are read or written and is no
// part of the value: the C names are lent slices of any lengths, and only questions 3 and 4 tell whether these fit.
ghost use Rattle.std.specs.Prelude.{◌≡◌, ◌≤◌};
ghost use Rattle.stores.specs.Stores.{raw_part};
ghost use Rattle.stores.specs.Code.StoreRows.{RoomRaw, RoomMerged};
ghost use Rattle.stores.specs.Columns.{raw_in, raw_of, raw_cut, merged_in, merged_of, merged_cut};

// A store of raw bars, to be read.
#[derive(Clone, Copy, Drop)]
pub struct RawColumns<'a> {
    pub times: &'a [i64],
    pub ids: &'a [i32],
    pub prices: &'a [[f64; 6]],
}

impl<'a> RawColumns<'a> {
    // The rows from `from` up to `to`.
    pub fn part(self, from: usize, to: usize) -> RawColumns<'a>
        requires order { from ≤ to }
        requires room { RoomRaw (raw_in self) to }
        ensures { raw_in result ≡ raw_cut from to (raw_in self.entry) }
    {
        RawColumns {
            times: &self.times[from..to],
            ids: &self.ids[from..to],
            prices: &self.prices[from..to],
        }
    }
}

// A store of raw bars, to be written.
#[derive(Drop)]
pub struct RawColumnsMut<'a> {
    pub times: &'a mut [i64],
    pub ids: &'a mut [i32],
    pub prices: &'a mut [[f64; 6]],
}

impl<'a> RawColumnsMut<'a> {
    // The same columns, to be read.
    pub fn seen(&self) -> RawColumns<'_>
        ensures { raw_in result ≡ raw_of self.now }
    {
        let RawColumnsMut { times, ids, prices } = self;
        RawColumns { times, ids, prices }
    }
}

// A store of merged bars, to be read.
#[derive(Clone, Copy, Drop)]
pub struct MergedColumns<'a> {
    pub times: &'a [i64],
    pub ids: &'a [i32],
    pub prices: &'a [[f64; 6]],
    pub counts: &'a [usize],
    pub elements: &'a [[i64; 101]],
}

impl<'a> MergedColumns<'a> {
    // What it shares with a store of raw bars.
    pub fn bars(self) -> RawColumns<'a>
        ensures { raw_in result ≡ raw_part (merged_in self.entry) }
    {
        let MergedColumns {
            times,
            ids,
            prices,
            ..
        } = self;
        RawColumns { times, ids, prices }
    }

    // The rows from `from` up to `to`.
    pub fn part(self, from: usize, to: usize) -> MergedColumns<'a>
        requires order { from ≤ to }
        requires room { RoomMerged (merged_in self) to }
        ensures { merged_in result ≡ merged_cut from to (merged_in self.entry) }
    {
        let bars = self.bars().part(from, to);
        MergedColumns {
            times: bars.times,
            ids: bars.ids,
            prices: bars.prices,
            counts: &self.counts[from..to],
            elements: &self.elements[from..to],
        }
    }
}

// A store of merged bars, to be written.
#[derive(Drop)]
pub struct MergedColumnsMut<'a> {
    pub times: &'a mut [i64],
    pub ids: &'a mut [i32],
    pub prices: &'a mut [[f64; 6]],
    pub counts: &'a mut [usize],
    pub elements: &'a mut [[i64; 101]],
}

impl<'a> MergedColumnsMut<'a> {
    // The same columns, to be read.
    // Kept: field by field, since each slice is lent on by itself: a pattern of the five names and a value of the five again would be twice as long.
    pub fn seen(&self) -> MergedColumns<'_>
        ensures { merged_in result ≡ merged_of self.now }
    {
        MergedColumns {
            times: self.times,
            ids: self.ids,
            prices: self.prices,
            counts: self.counts,
            elements: self.elements,
        }
    }
}
