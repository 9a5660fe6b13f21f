// The stand and the reports as lines of the replay format.
#![tactic(auto)]

mod all_reports;
mod dump;
mod rows;
mod text;

use strokes::{Stand, StoreColumns};
pub use text::refusal;

// An analyzer that is asked: its stand, and the stores that it lives in.
#[derive(Clone, Copy)]
pub struct Analyzer<'a> {
    pub stand: Stand,
    pub stores: StoreColumns<'a>,
}
