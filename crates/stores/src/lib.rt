// The lent stores of raw bars and of merged bars, and merging into a tail of bars of one's own.
#![tactic(auto)]

mod bar_stores;
mod lent_columns;
mod rows;
mod tails;

pub use bar_stores::find_time;
pub use lent_columns::{MergedColumns, MergedColumnsMut, RawColumns, RawColumnsMut};
pub use rows::move_rows;
