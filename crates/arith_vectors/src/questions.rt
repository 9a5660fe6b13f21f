// A line's question and its answer.
use lines::{Digits, Output, Unanswered, Words, float, whole};
use std::alloc::{AllocError, Global};
use std::io::Write;
use std::str::{self, FromStr};

#[derive(Clone, Copy)]
enum Kind {
    Round,
    // To so many places.
    Places(usize),
    Max,
    Min,
    Abs,
    Sum,
    Mean,
    Slope,
    Acceleration,
    Snr,
}

// The most values of a question that is answered.
const MOST: usize = 4096;

impl FromStr for Kind {
    type Err = Unanswered;

    fn from_str(name: &str) -> Result<Kind, Unanswered> {
        Ok(match name {
            "round" => Kind::Round,
            "round2" => Kind::Places(2),
            "round3" => Kind::Places(3),
            "round4" => Kind::Places(4),
            "max" => Kind::Max,
            "min" => Kind::Min,
            "abs" => Kind::Abs,
            "sum" => Kind::Sum,
            "mean" => Kind::Mean,
            "slope" => Kind::Slope,
            "acceleration" => Kind::Acceleration,
            "snr" => Kind::Snr,
            _ => return Err(Unanswered::BadLine),
        })
    }
}

// The values behind a line's name.
fn values_of(alloc: Global, words: Words<'_>) -> Result<Vec<f64>, Unanswered> {
    let mut values = Vec::new(alloc);
    for word in words {
        let x = float(word).ok_or(Unanswered::BadLine)?;
        if values.len() == MOST {
            return Err(Unanswered::TooLong);
        }
        values.push(x)?;
    }
    Ok(values)
}

// The first values of pairs, and the second ones.
fn snr_of(alloc: Global, values: &[f64]) -> Result<f64, AllocError> {
    let opens: Vec<f64> = values.iter().copied().step_by(2).collect(alloc)?;
    let closes: Vec<f64> = values.iter().copied().skip(1).step_by(2).collect(alloc)?;
    Ok(arith::snr(&opens, &closes))
}

fn value_of(alloc: Global, kind: Kind, values: &[f64]) -> Result<f64, Unanswered> {
    Ok(match (kind, values) {
        (Kind::Round, [x]) => arith::round(*x),
        (Kind::Places(n), [x]) => arith::round_to_nth_digit(*x, n),
        (Kind::Abs, [x]) => arith::abs(*x),
        (Kind::Max, [x, y]) => arith::max(*x, *y),
        (Kind::Min, [x, y]) => arith::min(*x, *y),
        (Kind::Sum, _) => arith::sum(values),
        (Kind::Slope, _) => arith::slope(values),
        (Kind::Acceleration, _) => arith::acceleration(values),
        (Kind::Mean, [_, ..]) => arith::mean(values),
        (Kind::Snr, _) if values.len() % 2 == 0 => snr_of(alloc, values)?,
        _ => return Err(Unanswered::BadLine),
    })
}

// `places D X`: a digit D from 0 to 6 and one value after the name.
fn places_of(words: &mut Words<'_>) -> Option<f64> {
    let digit = words.next()?;
    let places: usize = whole(digit)?;
    let x = float(words.next()?)?;
    let asked = digit.len() == 1 && places <= 6 && words.next().is_none();
    asked.then_some(arith::round_to_nth_digit(x, places))
}

fn value(alloc: Global, line: &[u8]) -> Result<f64, Unanswered> {
    let mut words = str::from_utf8(line)?.split(' ');
    let name = words.next().unwrap_or("");
    if name == "places" {
        return places_of(&mut words).ok_or(Unanswered::BadLine);
    }
    let kind = name.parse::<Kind>()?;
    value_of(alloc, kind, &values_of(alloc, words)?)
}

// Writes the answer to a line.
pub fn answer(out: &mut Output, alloc: Global, line: &[u8]) -> Result<(), Unanswered> {
    writeln!(out, "{}", Digits(value(alloc, line)?))?;
    Ok(())
}
