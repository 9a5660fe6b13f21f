// The entry points under C names, for a program in another language to link: sound::new_stand, feed::Czsc::update_bar and batch::feed_all,
// whose contracts are said again of the stand that lies packed in lent rows between two calls. No struct goes over.
#![tactic(auto)]

mod calls;
mod handed;

pub use calls::{czsc_feed_all, czsc_fresh, czsc_update_bar};
