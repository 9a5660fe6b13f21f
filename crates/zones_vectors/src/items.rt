// Strokes and fractals read off what is left of a line.
use check_bi::Candle;
use machine::{Direction, Mark};
use std::str;
use zones::Summary;

// What is left of a line: fields, each with a space before it. These are bytes and no words, since the byte behind a stroke's letter may be any, a space too, and
// what follows the last fractal is not looked at.
#[derive(Clone, Copy)]
pub struct Fields<'a>(pub &'a [u8]);

impl<'a> Fields<'a> {
    pub fn is_empty(&self) -> bool {
        self.0.is_empty()
    }

    // The next n bytes.
    fn bytes(&mut self, n: usize) -> Option<&'a [u8]> {
        let (field, rest) = self.0.strip_prefix(b" ")?.split_at_checked(n)?;
        self.0 = rest;
        Some(field)
    }

    fn float(&mut self) -> Option<f64> {
        lines::float(str::from_utf8(self.bytes(16)?).ok()?)
    }

    // The bytes up to the next space, as a whole number.
    fn whole(&mut self) -> Option<i64> {
        let word = self.0.strip_prefix(b" ")?;
        let n = word.iter().position(|b| *b == b' ').unwrap_or(word.len());
        lines::whole(str::from_utf8(self.bytes(n)?).ok()?)
    }

    // A direction is told by its first letter: two bytes are `up`, four are `down`.
    // Kept: so, since the program answers every line as it always did, also one with another letter behind the first.
    fn direction(&mut self) -> Option<Direction> {
        let (direction, n) = match self.0.get(1)? {
            b'u' => (Direction::Up, 2),
            b'd' => (Direction::Down, 4),
            _ => return None,
        };
        self.bytes(n)?;
        Some(direction)
    }

    // Kept: the one place that reads a mark; FromStr of Mark would be this match in machine.
    fn mark(&mut self) -> Option<Mark> {
        match self.bytes(1)? {
            b"D" => Some(Mark::D),
            b"G" => Some(Mark::G),
            _ => None,
        }
    }

    // `up|down HIGH LOW SDT EDT`
    pub fn stroke(&mut self) -> Option<Summary> {
        Some(Summary {
            direction: self.direction()?,
            high: self.float()?,
            low: self.float()?,
            began: self.whole()?,
            ended: self.whole()?,
        })
    }

    // `TIME D|G HIGH LOW`
    pub fn fractal(&mut self) -> Option<(Mark, Candle)> {
        let time = self.whole()?;
        let mark = self.mark()?;
        let high = self.float()?;
        let low = self.float()?;
        Some((mark, Candle { time, high, low }))
    }
}
