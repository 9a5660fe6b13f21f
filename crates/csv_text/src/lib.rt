// A bar as a record of RFC 4180 text, of document 02's request four: time, open, close, high, low, vol, amount.
#![tactic(auto)]

mod numerals;
mod records;
mod values;

pub use records::{bar_of_text, read_record};
