// The writing steps of a feed, put together: what the plan says is written to the lent stores.
#![tactic(auto)]

mod feed_writing;
mod raw_moves;
mod stroke_moves;
mod unfinished_moves;

pub use feed_writing::write;
use strokes::Stand;

// The stand after a feed, and how many strokes it made, broke and shed: each none or one.
// Kept: numbers, as the machine's events are, and as the C interface tells them.
// Kept: not feed's Events: the definitions in its contracts (added, events_in) are feed's, which lies above.
#[derive(Clone, Copy)]
pub struct Wrote {
    pub stand: Stand,
    pub made: u64,
    pub broken: u64,
    pub shed: u64,
}
