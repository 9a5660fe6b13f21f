// The raw bars that elements name: each element is looked up among the raw times.
ghost use Rattle.std.specs.Prelude.{◌≡◌, [], ◌<◌, ◌≤◌, length, take, get_or, T};
ghost use Rattle.sound.specs.Code.SoundStand.{is_time};
ghost use Rattle.stores.specs.Code.StoreRows.{place_of};
ghost use Rattle.reports.specs.Code.ElementPrices.{elements_in, open_close, named_bar};

use crate::inner_bars::{InnerBars, RawBars};
use bars::Bar;

impl<'a> RawBars<'a> {
    // Where the raw bar of a time stands.
    // Kept: the time is known to be there, and the open and the close are read of the row, so that stores' `named` would give an Option to unwrap and a whole bar: no plainer.
    fn place(self, time: i64) -> usize
        requires { T (is_time self.columns.times.now time) }
        ensures value { result ≡ place_of time self.entry.columns.times.now }
        ensures inside { result < length self.entry.columns.times.now }
    {
        let times = self.columns.times;
        stores::find_time(times, times.len(), time)
    }

    // Its open and its close.
    pub fn open_and_close(self, time: i64) -> (f64, f64)
        requires { T (is_time self.columns.times.now time) }
        ensures { result ≡ open_close self.entry time }
    {
        let [open, close, _, _, _, _] = self.columns.prices[self.place(time)];
        (open, close)
    }

    pub fn bar(self, time: i64) -> Bar
        requires { T (is_time self.columns.times.now time) }
        ensures { result ≡ named_bar self.entry time }
    {
        self.columns.bar(self.place(time))
    }
}

// Of the elements of row i the first `count`.
fn in_use(elements: &[[i64; 101]], i: usize, count: usize) -> &[i64]
    requires { i < length elements.now }
    ensures value { result.now ≡ take count (get_or elements.now i []) }
    ensures few { length result.now ≤ 101 }
{
    let row = &elements[i];
    &row[..count.min(row.len())]
}

impl<'a> InnerBars<'a> {
    // The elements of the bar at a place.
    // Kept: by place, as the three loops over the bars read it (below, in measures and in asked_raw_bars): a zip of counts and rows would name both in each of
    // them, and a walk to be handed out would be a type with laws of its own, as a result can't be `impl Iterator`.
    pub fn elements_at(self, i: usize) -> &'a [i64]
        requires { i < length self.counts.now }
        ensures value { result.now ≡ take (get_or self.entry.counts.now i 0) (get_or self.entry.elements.now i []) }
        ensures few { length result.now ≤ 101 }
    {
        in_use(self.elements, i, self.counts[i])
    }

    // How many elements they have.
    // Kept: added in the loop, whose turns each show that the sum fits; `sum` asks that of the whole before its first turn (can_sum).
    pub fn count_elements(self) -> usize
        ensures { result ≡ length (elements_in self.entry.counts.now self.entry.elements.now) }
    {
        let mut sum: usize = 0;
        for i in 0..self.counts.len() {
            sum += self.elements_at(i).len();
        }
        sum
    }
}
