// Feed: one bar at a time, with what every list of calls has. feed_sound is the step of a stand that question 4 has passed, for from_fresh above.
#![tactic(auto)]

mod events;
mod feed;

pub use events::Events;
pub use feed::{Czsc, feed_sound};
