// What several answers have.
use bars::Question;
use lines::{Output, Spaced};
use machine::Mark;
use std::fmt;
use std::io::{self, Write};
use strokes::row_mark;

// `no K`: the number of the first question that was answered "no".
pub fn refusal(out: &mut Output, question: Question) -> io::Result<()> {
    writeln!(out, "no {}", question.number())
}

// A fractal's rows: the times and then the ids of its three bars, and their prices, of a bar its open, close, high, low, volume and amount.
#[derive(Clone, Copy)]
pub struct FractalRow<'a> {
    pub stamps: &'a [i64; 6],
    pub prices: &'a [f64; 18],
}

impl<'a> FractalRow<'a> {
    pub fn mark(self) -> Mark {
        row_mark(*self.prices)
    }
}

// `TIME D|G HIGH LOW FX`, of the middle bar: fx is a top's high and a bottom's low.
impl<'a> fmt::Display for FractalRow<'a> {
    fn fmt<W: fmt::Write>(&self, f: &mut fmt::Formatter<W>) -> fmt::Result {
        // Kept: the middle bar's numbers by their places, 8, 9 and 1: a pattern would be eighteen places long, and the reader would have to count them there as
        // well. A match of its own gives fx: check_bi's Fx has a place too, which a row does not know.
        let (high, low) = (self.prices[8], self.prices[9]);
        let mark = self.mark();
        let fx = match mark {
            Mark::G => high,
            Mark::D => low,
        };
        write!(f, "{} {mark}{}", self.stamps[1], Spaced(&[high, low, fx]))
    }
}
