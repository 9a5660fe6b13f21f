// Lines of words, for the programs that answer them: floats by their bits, whole numbers, input and output.
#![tactic(auto)]

mod answering;
mod floats;
mod numbers;
mod reading;
mod writing;

pub use answering::{Unanswered, answer_lines, asks, text, words_behind};
pub use floats::{Digits, Spaced, float, float_of};
pub use numbers::whole;
pub use reading::{Input, buffered_input, read_line};
use std::str::Split;
pub use writing::{Output, buffered_output, flush_before_reading};

// What is left of a line, word by word: one space stands between two of them.
pub type Words<'a> = Split<'a, char>;

// The most bytes of a line that most programs take.
pub const MOST: usize = 65536;
