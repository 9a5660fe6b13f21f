// Questions 1 to 4 of document 01: a fresh analyzer, and whether a stand is sound.
#![tactic(auto)]

mod fresh_stand;
mod newest;
mod raw_times;
mod soundness;

pub use fresh_stand::{Settings, new_stand};
pub use newest::newest_is_last;
pub use soundness::is_sound;
