// Bars, questions 5 to 9, merging and gaps.
#![tactic(auto)]

mod gaps;
mod merging;
mod questions;
mod refusals;
mod rows;

pub use gaps::{Gap, Side, gap_among, list_gaps, pairs};
pub use merging::{new_from_raw, remove_include, remove_include_bar};
pub use questions::{
    FIRST_TIME, LAST_TIME, LEAST_PRICE, MOST_PRICE, from_zero, is_price, is_volume,
    low_at_most_high, prices_in_range, question_after, question_of_bar, time_in_range,
    volumes_in_range,
};
pub use refusals::{Question, number_of};

// RawBar of the source: one bar as it is fed. Time is in seconds.
#[derive(Clone, Copy)]
pub struct Bar {
    pub time: i64,
    pub id: i32,
    pub open: f64,
    pub close: f64,
    pub high: f64,
    pub low: f64,
    pub vol: f64,
    pub amount: f64,
}

// NewBar of the source, document 01's merged bar: a bar, and the times of the raw bars that were
// merged into it, its elements. The first `count` places of `elements` are in use.
// Kept: an array of a fixed length with the count beside, since a merged bar is a value without heap.
#[derive(Clone, Copy)]
pub struct NewBar {
    pub bar: Bar,
    pub count: usize,
    pub elements: [i64; 101],
}
