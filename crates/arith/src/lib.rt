// Floats: order, rounding and the sums behind the measures. Every function is total on every f64,
// NaN and the infinities included, and equals a definition of specs/.
#![tactic(auto)]

mod order;
mod rounding;
mod sums;

pub use order::{abs, max, min};
pub use rounding::{power_of_ten, round, round_to_nth_digit};
pub use sums::{
    Accumulator, FitSums, MeanSums, SlopeSums, SnrSums, acceleration, mean, slope, snr, sum,
};
