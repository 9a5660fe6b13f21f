// Bars as text: `TIME ID OPEN CLOSE HIGH LOW VOL AMOUNT`, floats as the 16 lower-case hexadecimal digits of their bits.
#![tactic(auto)]

use bars::{Bar, Gap, Side};
use lines::{Digits, Spaced, Words, float, whole};
use std::fmt;

fn next_float(words: &mut Words<'_>) -> Option<f64> {
    float(words.next()?)
}

// The bar of the next eight words.
pub fn read_bar(words: &mut Words<'_>) -> Option<Bar> {
    Some(Bar {
        time: whole(words.next()?)?,
        id: whole(words.next()?)?,
        open: next_float(words)?,
        close: next_float(words)?,
        high: next_float(words)?,
        low: next_float(words)?,
        vol: next_float(words)?,
        amount: next_float(words)?,
    })
}

// A bar as it is written.
#[derive(Clone, Copy)]
pub struct BarText(pub Bar);

impl fmt::Display for BarText {
    fn fmt<W: fmt::Write>(&self, f: &mut fmt::Formatter<W>) -> fmt::Result {
        let b = self.0;
        write!(f, "{} {}{}", b.time, b.id, Spaced(&b.prices()))
    }
}

// A gap as it is written: its side, its edges, its ratio where it has one, and whether it was covered.
#[derive(Clone, Copy)]
pub struct GapText(pub Gap);

impl fmt::Display for GapText {
    fn fmt<W: fmt::Write>(&self, f: &mut fmt::Formatter<W>) -> fmt::Result {
        let gap = self.0;
        // Kept: the one place that writes a side; Display would be this match in bars.
        f.write_str(match gap.side {
            Side::Up => "up",
            Side::Down => "down",
        })?;
        write!(f, "{} ", Spaced(&[gap.low, gap.high]))?;
        match gap.ratio {
            Some(ratio) => write!(f, "{}", Digits(ratio))?,
            None => f.write_str("none")?,
        }
        write!(f, " {}", u8::from(gap.covered))
    }
}
