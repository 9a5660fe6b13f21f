// The stand and its lent stores, and the writing steps of update_bar on them: methods of the stand, each in the file of the store that it writes.
#![tactic(auto)]

mod fractal_rows;
mod lent_columns;
mod packed;
mod raw_store;
mod strokes_store;
mod unfinished_store;

pub use fractal_rows::{direction_of, end_index, prices_of, row_mark, stamps_of};
pub use lent_columns::{FractalColumns, FractalColumnsMut, StoreColumns};
pub use packed::{pack, rows_there, unpack};
pub use raw_store::count_before;
pub use strokes_store::{LastStroke, Written, last_stroke, last_stroke_within, total_bars};

// How many bars each lent store takes.
#[derive(Clone, Copy)]
pub struct Rooms {
    pub raw: usize,
    pub unfinished: usize,
    pub strokes: usize,
}

// Document 01's stand, by value: settings, the rooms of the lent stores, and counts. `strokes` is the
// number of strokes kept; `bars` and `fractals` have the number of merged bars and of fractals of
// each, oldest first. A stroke just made counts before one is shed, so there are 65 places. The last
// two are settings: how many decimal places power and ratios are rounded to.
// Kept: arrays of a fixed length with the number of strokes beside, since a stand is a value without heap; two arrays and none of pairs, since the C interface
// has a row for each of the two (packed.rt).
#[derive(Clone, Copy)]
pub struct Stand {
    pub minimum: usize,
    pub most: usize,
    pub rooms: Rooms,
    pub raw: usize,
    pub unfinished: usize,
    pub strokes: usize,
    pub bars: [u32; 65],
    pub fractals: [u32; 65],
    pub power_places: usize,
    pub ratio_places: usize,
}
