// What a feed would do, asked before anything is written: what merging gives, the stroke that is found, the break, questions 5 to 12.
#![tactic(auto)]

mod merged_tail;
mod plan;
mod questions;

pub use plan::{Last, Plan, bars_made, end_in, plan_of, refused};
pub use questions::{Asked, ask};
