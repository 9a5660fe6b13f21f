// What is named by a place: a kept stroke, a fractal, a run of kept strokes, and questions 13 and 14, which every report asks of a name and of its output.
#![tactic(auto)]

mod fractals;
mod runs;
mod stroke_rows;

pub use fractals::{mark_at, middle_at};
pub use runs::run_exists;
pub use stroke_rows::{StrokeRows, kept};
