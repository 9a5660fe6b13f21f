// What is asked of kept strokes and of unfinished bars: measures, fractal answers, lists, the unfinished summary.
#![tactic(auto)]

mod asked_fractals;
mod asked_measures;
mod asked_raw_bars;
mod finished;
mod first_questions;
mod fractal_answers;
mod fractal_walk;
mod fx_answer;
mod fx_list;
mod gaps;
mod inner_bars;
mod measures;
mod named_bars;
mod rows_shown;
mod ubi;
mod ubi_list;

pub use asked_fractals::{stroke_fractal_answers, unfinished_fractal_answers};
pub use asked_measures::measures_at;
pub use asked_raw_bars::raw_bars;
pub use finished::{get_finished_bis, last_bi_extend};
pub use fractal_answers::{FractalAnswers, Strength};
pub use fractal_walk::FractalBars;
pub use fx_answer::get_fx_list;
pub use gaps::{check_gap_info, check_gaps};
pub use measures::Measures;
pub use ubi::{UbiSummary, get_ubi};
pub use ubi_list::ubi_fxs;
