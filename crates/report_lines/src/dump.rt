// `d`: the stand and what its stores hold, whatever stand it is.
use crate::Analyzer;
use crate::text::FractalRow;
use bar_lines::BarText;
use bars::Bar;
use lines::{Output, Spaced};
use std::fmt;
use std::io::{self, Write};
use stores::{MergedColumns, RawColumns};
use strokes::{FractalColumns, direction_of, end_index};

// A merged bar where it lies in its store.
#[derive(Clone, Copy)]
struct Merged<'a> {
    bar: Bar,
    elements: &'a [i64],
}

// Kept: by `get`, here and in fractal_at: a stand that is unsound may speak of rows that are not there, and the methods of stores ask that they are.
fn merged_at(bars: MergedColumns<'_>, at: usize) -> Option<Merged<'_>> {
    let count = *bars.counts.get(at)?;
    let row = bars.elements.get(at)?;
    Some(Merged {
        bar: Bar::of(
            *bars.times.get(at)?,
            *bars.ids.get(at)?,
            *bars.prices.get(at)?,
        ),
        elements: &row[..count.min(101)],
    })
}

fn fractal_at(fractals: FractalColumns<'_>, at: usize) -> Option<FractalRow<'_>> {
    Some(FractalRow {
        stamps: fractals.stamps.get(at)?,
        prices: fractals.prices.get(at)?,
    })
}

// The times of the elements that name kept raw bars.
#[derive(Clone, Copy)]
struct Named<'a> {
    elements: &'a [i64],
    kept: &'a [i64],
}

impl<'a> fmt::Display for Named<'a> {
    fn fmt<W: fmt::Write>(&self, f: &mut fmt::Formatter<W>) -> fmt::Result {
        for time in self.elements {
            if self.kept.contains(time) {
                write!(f, " {time}")?;
            }
        }
        Ok(())
    }
}

// Each of the first n raw bars.
fn raw_lines(out: &mut Output, raw: RawColumns<'_>, n: usize) -> io::Result<()> {
    // Kept: zipped here: rows of RawColumns one after the other would be an iterator type with laws of its own, for this loop and batch's.
    for ((time, id), prices) in raw.times.iter().zip(raw.ids).zip(raw.prices).take(n) {
        writeln!(out, "raw {}", BarText(Bar::of(*time, *id, *prices)))?;
    }
    Ok(())
}

// `fx` and the three `fb` lines of a fractal.
fn fractal_lines(out: &mut Output, fractal: FractalRow<'_>) -> io::Result<()> {
    writeln!(out, "fx {fractal}")?;
    let FractalRow { stamps, prices } = fractal;
    let (times, ids) = stamps.split_at(3);
    for ((time, id), bar) in times.iter().zip(ids).zip(prices.chunks_exact(6)) {
        writeln!(out, "fb {time} {id}{}", Spaced(bar))?;
    }
    Ok(())
}

impl<'a> Analyzer<'a> {
    // The times of the kept raw bars.
    fn kept(&self) -> &'a [i64] {
        let times = self.stores.raw.times;
        &times[..self.stand.raw.min(times.len())]
    }

    // Each of the unfinished bars.
    fn unfinished_lines(&self, out: &mut Output) -> io::Result<()> {
        let kept = self.kept();
        let bars = self.stores.unfinished;
        for merged in (0..self.stand.unfinished).map_while(|i| merged_at(bars, i)) {
            let Merged { bar, elements } = merged;
            writeln!(out, "ubi {} :{}", BarText(bar), Named { elements, kept })?;
        }
        Ok(())
    }

    // The merged bars of a stroke, from place `at` on, n of them; the first and the last without elements.
    fn stroke_bars(&self, out: &mut Output, at: usize, n: usize) -> io::Result<()> {
        let kept = self.kept();
        // Kept: by place, which tells the first and the last: `map_while` would hand on the bars alone, to be counted again.
        for i in 0..n {
            let Some(Merged { bar, elements }) = merged_at(
                self.stores.strokes,
                at.saturating_add(i),
            ) else {
                return Ok(());
            };
            write!(out, "bar {} :", BarText(bar))?;
            if i != 0 && i != n - 1 {
                write!(out, "{}", Named { elements, kept })?;
            }
            writeln!(out)?;
        }
        Ok(())
    }

    // The stroke whose rows begin at place `at`, with n merged bars and m fractals: `stroke up|down NFX NBARS`, its two ends, and then its fractals and its bars.
    // Kept: three numbers and no StrokeRows (named), whose end_row asks that their sum is below 2^63, which is not known of an unsound stand.
    fn stroke_lines(&self, out: &mut Output, at: usize, n: usize, m: usize) -> io::Result<()> {
        let fractals = self.stores.fractals;
        let end = at.saturating_add(end_index(m));
        let (Some(first), Some(last)) = (fractal_at(fractals, at), fractal_at(fractals, end)) else {
            return Ok(());
        };
        let direction = direction_of(first.mark());
        writeln!(out, "stroke {direction} {m} {n}")?;
        writeln!(out, "a {first}")?;
        writeln!(out, "z {last}")?;
        for fractal in (at..at.saturating_add(m)).map_while(|i| fractal_at(fractals, i)) {
            fractal_lines(out, fractal)?;
        }
        self.stroke_bars(out, at, n)
    }

    // Every kept stroke, oldest first.
    fn strokes_lines(&self, out: &mut Output) -> io::Result<()> {
        let stand = self.stand;
        // Kept: the place goes along; total_bars would add up the strokes before it once more for each stroke, and asks that their sum fits.
        let mut at: usize = 0;
        for (n, m) in stand.bars.iter().zip(&stand.fractals).take(stand.strokes) {
            self.stroke_lines(out, at, *n as usize, *m as usize)?;
            at = at.saturating_add(*n as usize);
        }
        Ok(())
    }

    pub fn stand_lines(&self, out: &mut Output) -> io::Result<()> {
        let stand = self.stand;
        write!(out, "stand {} {}", stand.minimum, stand.most)?;
        writeln!(out, " {} {} {}", stand.raw, stand.unfinished, stand.strokes)?;
        raw_lines(out, self.stores.raw, stand.raw)?;
        self.unfinished_lines(out)?;
        self.strokes_lines(out)?;
        writeln!(out, "end")
    }
}
