// The search for a stroke among the unfinished bars where they lie: check_fx.rt has check_fx of the source, scan.rt and windows.rt have check_bi, in one pass.
#![tactic(auto)]

mod check_fx;
mod scan;
mod view;
mod windows;

pub use check_fx::{Candle, Fx, fractal_mark, is_bottom, is_top, mark_of};
pub use scan::{Best, FoundBi, Scan, found_bi};
pub use view::View;
pub use windows::next_row;
