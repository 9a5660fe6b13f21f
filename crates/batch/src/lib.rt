// The batch call: a list of bars fed to a fresh analyzer in one call.
#![tactic(auto)]

mod batch;

pub use batch::{BatchAnswer, feed_all};
