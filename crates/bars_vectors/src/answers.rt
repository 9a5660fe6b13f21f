// A line's question and its answer.
use bar_lines::{BarText, GapText, read_bar};
use bars::{Bar, NewBar};
use lines::{Output, Unanswered, Words, words_behind};
use std::alloc::Global;
use std::io::{self, Write};
use std::{fmt, str};

// A merged bar's elements, a space before each.
#[derive(Clone, Copy)]
struct Elements<'a>(&'a NewBar);

impl<'a> fmt::Display for Elements<'a> {
    fn fmt<W: fmt::Write>(&self, f: &mut fmt::Formatter<W>) -> fmt::Result {
        f.write_str(" :")?;
        for time in self.0.elements.iter().take(self.0.count) {
            write!(f, " {time}")?;
        }
        Ok(())
    }
}

// The next bar is merged into the second of these, behind the first.
fn remove_include(out: &mut Output, k1: Bar, k2: Bar, k3: Bar) -> io::Result<()> {
    let merged_bar = bars::remove_include(k1.high, bars::new_from_raw(k2), k3);
    let merged = u8::from(merged_bar.is_some());
    let k = merged_bar.unwrap_or(bars::new_from_raw(k3));
    writeln!(out, "{merged} {}{}", BarText(k.bar), Elements(&k))
}

// Three bars, and nothing behind them.
fn three_bars(words: &mut Words<'_>) -> Option<(Bar, Bar, Bar)> {
    let bars = (read_bar(words)?, read_bar(words)?, read_bar(words)?);
    words.next().is_none().then_some(bars)
}

// The rows of prices of the bars behind a line's name, fewer than 64.
// Kept: beside strokes_of of zones_vectors, which reads bytes until none is left: here words are counted first, since a line of another number of them is bad.
fn prices_of(
    alloc: Global,
    line: &str,
    words: &mut Words<'_>,
) -> Result<Vec<[f64; 6]>, Unanswered> {
    let behind = words_behind(line.as_bytes());
    if behind % 8 != 0 || 64 <= behind / 8 {
        return Err(Unanswered::BadLine);
    }
    let mut prices = Vec::new(alloc);
    for _ in 0..behind / 8 {
        let b = read_bar(words).ok_or(Unanswered::BadLine)?;
        prices.push(b.prices())?;
    }
    Ok(prices)
}

// The pairs of neighbours among these rows.
// Kept: by place, since gap_among is asked for the pair at a place, and answers Err where there is none; so each place below n - 1 is asked.
fn gaps(out: &mut Output, prices: &[[f64; 6]]) -> io::Result<()> {
    let n = prices.len();
    if n < 2 {
        return writeln!(out, "empty");
    }
    for i in 0..n - 1 {
        if 0 < i {
            write!(out, " | ")?;
        }
        match bars::gap_among(4, prices, n, i) {
            Ok(Some(gap)) => write!(out, "{}", GapText(gap))?,
            Ok(None) => write!(out, "none")?,
            Err(_) => write!(out, "missing")?,
        }
    }
    writeln!(out)
}

// A bar of this time, 12/9.
fn bar_12_9(time: i64) -> Bar {
    Bar {
        time,
        id: 0,
        open: 9.0,
        close: 12.0,
        high: 12.0,
        low: 9.0,
        vol: 1.0,
        amount: 1.0,
    }
}

// Behind a bar with high 10, bars 12/9 of times 1 to 102 become one bar.
fn deep_bar() -> NewBar {
    let mut k = bars::new_from_raw(bar_12_9(1));
    for time in 2..103 {
        let b = bar_12_9(time);
        k = bars::remove_include(10.0, k, b).unwrap_or(bars::new_from_raw(b));
    }
    k
}

// The number of the first question that a bar of this price fails.
fn ask_price(x: f64) -> u64 {
    let asked = bars::question_of_bar(Bar {
        time: 1,
        id: 0,
        open: x,
        close: x,
        high: x,
        low: x,
        vol: 1.0,
        amount: 1.0,
    });
    bars::number_of(asked)
}

// Writes the answer to a question on the bars behind a name. A space behind its last word is passed over.
fn answer_of_bars(out: &mut Output, alloc: Global, whole: &str) -> Result<(), Unanswered> {
    let line = whole.strip_suffix(' ').unwrap_or(whole);
    let mut words = line.split(' ');
    match words.next() {
        Some("remove_include") => {
            let (k1, k2, k3) = three_bars(&mut words).ok_or(Unanswered::BadLine)?;
            remove_include(out, k1, k2, k3)?;
        }
        Some("gaps") => gaps(out, &prices_of(alloc, line, &mut words)?)?,
        _ => return Err(Unanswered::BadLine),
    }
    Ok(())
}

// Writes the answer to a line. What stands behind `deep` and `price` is not looked at, so that it need be no text.
pub fn answer(out: &mut Output, alloc: Global, line: &[u8]) -> Result<(), Unanswered> {
    match line.split(|b| *b == b' ').next() {
        Some(b"deep") => writeln!(out, "deep{}", Elements(&deep_bar()))?,
        // 2^30, and the next float.
        Some(b"price") => {
            let first = ask_price(1073741824.0);
            let second = ask_price(lines::float_of(4742290407621132289));
            writeln!(out, "price {first} {second}")?;
        }
        _ => answer_of_bars(out, alloc, str::from_utf8(line)?)?,
    }
    Ok(())
}

// Says that a line is bad, whatever it is that it can't be taken for.
pub fn say(unanswered: Unanswered, out: &mut Output, _number: u64) -> io::Result<()> {
    match unanswered {
        Unanswered::Failed(e) => Err(e),
        Unanswered::BadLine | Unanswered::TooLong => writeln!(out, "bad line"),
    }
}
