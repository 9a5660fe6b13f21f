// The fractals' columns as one value, and all columns of the lent stores, to be read.
ghost use Rattle.std.specs.Prelude.{◌≡◌, ◌≤◌};
ghost use Rattle.strokes.specs.Code.StrokeSteps.{RoomFractals};
ghost use Rattle.strokes.specs.Columns.{fractals_in, fractals_of, fractals_cut, stores_in, written_in};

use stores::{MergedColumns, MergedColumnsMut, RawColumns, RawColumnsMut};

// A store of fractals, to be read.
#[derive(Clone, Copy, Drop)]
pub struct FractalColumns<'a> {
    pub stamps: &'a [[i64; 6]],
    pub prices: &'a [[f64; 18]],
}

impl<'a> FractalColumns<'a> {
    // The rows from `from` up to `to`.
    pub fn part(self, from: usize, to: usize) -> FractalColumns<'a>
        requires order { from ≤ to }
        requires room { RoomFractals (fractals_in self) to }
        ensures { fractals_in result ≡ fractals_cut from to (fractals_in self.entry) }
    {
        FractalColumns {
            stamps: &self.stamps[from..to],
            prices: &self.prices[from..to],
        }
    }
}

// A store of fractals, to be written.
#[derive(Drop)]
pub struct FractalColumnsMut<'a> {
    pub stamps: &'a mut [[i64; 6]],
    pub prices: &'a mut [[f64; 18]],
}

impl<'a> FractalColumnsMut<'a> {
    // The same columns, to be read.
    pub fn seen(&self) -> FractalColumns<'_>
        ensures { fractals_in result ≡ fractals_of self.now }
    {
        FractalColumns {
            stamps: self.stamps,
            prices: self.prices,
        }
    }
}

// All lent stores, to be read.
// Kept: a stand and its stores are two parameters wherever a report is asked. A value of both would be made at each call of a report and taken apart in its
// first line, and its contract would name stand and stores apart all the same (state_of stand (stores_in stores)).
// Kept: no value has all four stores to be written: raw bars, unfinished bars, the strokes' bars and their fractals are lent one by one. Tried: a value
// of the four, and one that borrows them. What a slice ends as is known to a caller that put it into a store's columns, and no longer where that store
// stands in a larger value.
#[derive(Clone, Copy, Drop)]
pub struct StoreColumns<'a> {
    pub raw: RawColumns<'a>,
    pub unfinished: MergedColumns<'a>,
    pub strokes: MergedColumns<'a>,
    pub fractals: FractalColumns<'a>,
}

impl<'a> StoreColumns<'a> {
    // All stores that are lent to be written, to be read.
    pub fn of(
        raw: &'a RawColumnsMut<'_>,
        unfinished: &'a MergedColumnsMut<'_>,
        strokes: &'a MergedColumnsMut<'_>,
        fractals: &'a FractalColumnsMut<'_>,
    ) -> StoreColumns<'a>
        ensures { stores_in result ≡ written_in raw.now unfinished.now strokes.now fractals.now }
    {
        StoreColumns {
            raw: raw.seen(),
            unfinished: unfinished.seen(),
            strokes: strokes.seen(),
            fractals: fractals.seen(),
        }
    }
}
