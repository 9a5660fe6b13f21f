// `r`: all reports of a sound stand, in a fixed order.
use crate::Analyzer;
use crate::rows::{Row, Rows};
use crate::text::{FractalRow, refusal};
use bar_lines::GapText;
use bars::{Gap, Question, Side};
use lines::{Digits, Output, Spaced};
use machine::Direction;
use reports::{FractalAnswers, Measures, Strength};
use std::io::{self, Write};
use stores::RawColumnsMut;
use strokes::FractalColumnsMut;

fn measure_words(out: &mut Output, m: Measures) -> io::Result<()> {
    let powers = [m.power_price, m.power_volume, m.snr, m.power_snr];
    let lines = [m.change, m.slope, m.acceleration];
    write!(out, "measure{}", Spaced(&[m.high, m.low]))?;
    write!(out, "{}{} {}", Spaced(&powers), Spaced(&lines), m.length)
}

// The fractals that `list` writes and counts, each behind this name.
fn fractal_lines<F>(out: &mut Output, name: &str, list: F) -> io::Result<()>
where
    F: FnOnce(&mut FractalColumnsMut<'_>) -> Result<usize, Question>,
    requires { F.IsAlwaysCallable list }
{
    // Kept: arrays side by side, since the entry points write into these two columns.
    let mut stamps = [[0i64; 6]; 3072];
    let mut prices = [[0f64; 18]; 3072];
    let mut to = FractalColumnsMut {
        stamps: &mut stamps,
        prices: &mut prices,
    };
    let n = list(&mut to).unwrap_or(0);
    for (stamps, prices) in stamps.iter().zip(&prices).take(n) {
        writeln!(out, "{name} {}", FractalRow { stamps, prices })?;
    }
    Ok(())
}

// The times of a zone's ends, its directions, its edges, whether it is valid, and how many strokes it has.
// Kept: its last column is read as numbers, here and in the two functions below, as zones writes it (docs/STORES.md).
fn zone_line(out: &mut Output, name: &str, zone: Row<5, [usize; 4]>) -> io::Result<()> {
    let [from, to] = zone.times;
    let [first, last, valid, strokes] = zone.kind;
    write!(out, "{name}zone {from} {to}")?;
    let [first, last] = [first, last].map(|n| Direction::from(n));
    write!(out, " {first} {last}")?;
    writeln!(out, "{} {valid} {strokes}", Spaced(&zone.prices))
}

fn zone_stroke(out: &mut Output, name: &str, stroke: Row<2, u8>) -> io::Result<()> {
    let direction = Direction::from(usize::from(stroke.kind));
    let [from, to] = stroke.times;
    writeln!(
        out,
        "{name}zs {direction}{} {from} {to}",
        Spaced(&stroke.prices)
    )
}

fn fake_line(out: &mut Output, fake: Row<3, u8>) -> io::Result<()> {
    let direction = Direction::from(usize::from(fake.kind));
    let [from, to] = fake.times;
    writeln!(out, "fake {direction} {from} {to}{}", Spaced(&fake.prices))
}

fn answers_line(out: &mut Output, a: FractalAnswers) -> io::Result<()> {
    // Kept: the one place that writes a strength; Display would be this match in reports.
    let strength = match a.power_str {
        Strength::Strong => "strong",
        Strength::Medium => "medium",
        Strength::Weak => "weak",
    };
    writeln!(
        out,
        "answers {strength} {} {}",
        Digits(a.power_volume),
        u8::from(a.has_zs)
    )
}

// The answers of the fractals at places 0, 1 and so on, up to the first that `ask` refuses.
fn answers_lines<F>(out: &mut Output, ask: F) -> io::Result<()>
where
    F: Fn(usize) -> Result<FractalAnswers, Question>,
    requires { F.IsAlwaysCallable ask }
{
    for answers in (0..2048).map_while(|place| ask(place).ok()) {
        answers_line(out, answers)?;
    }
    Ok(())
}

// A gap as the listing has it: 0 is none, 1 up, 2 down, 3 and 4 up and down without a ratio; then its edges and its ratio.
// Kept: from numbers, as check_gaps writes its columns (docs/STORES.md); `covered` is handed on and chooses no step.
fn gap_of(kind: u64, values: [f64; 3], covered: bool) -> Option<Gap> {
    let [low, high, ratio] = values;
    let (side, ratio) = match kind {
        0 => return None,
        1 => (Side::Up, Some(ratio)),
        2 => (Side::Down, Some(ratio)),
        3 => (Side::Up, None),
        _ => (Side::Down, None),
    };
    Some(Gap {
        side,
        low,
        high,
        ratio,
        covered,
    })
}

fn gap_line(out: &mut Output, gap: Option<Gap>) -> io::Result<()> {
    match gap {
        Some(gap) => writeln!(out, "gap {}", GapText(gap)),
        None => writeln!(out, "gap none"),
    }
}

impl<'a> Analyzer<'a> {
    // The measures of the stroke at a place, and the number and the times of its inner raw bars.
    fn measure(&self, out: &mut Output, place: usize) -> io::Result<()> {
        // Kept: arrays side by side, since the entry point writes into these columns.
        let mut times = [0i64; 4096];
        let mut ids = [0i32; 4096];
        let mut prices = [[0f64; 6]; 4096];
        let mut to = RawColumnsMut {
            times: &mut times,
            ids: &mut ids,
            prices: &mut prices,
        };
        let inner = reports::raw_bars(self.stand, self.stores, place, &mut to).unwrap_or(0);
        let Ok(m) = reports::measures_at(self.stand, self.stores, place) else {
            return Ok(());
        };
        measure_words(out, m)?;
        writeln!(out, " {inner}")?;
        write!(out, "inner")?;
        for time in times.iter().take(inner) {
            write!(out, " {time}")?;
        }
        writeln!(out)
    }

    // The fake strokes of the stroke at a place.
    fn fakes(&self, out: &mut Output, place: usize) -> io::Result<()> {
        let mut fakes = Rows::<1024, 3, u8>::new(0);
        let count = zones::create_fake_bis(self.stand, self.stores, place, &mut fakes.lent());
        for fake in (0..count.unwrap_or(0)).map_while(|i| fakes.row(i)) {
            fake_line(out, fake)?;
        }
        Ok(())
    }

    // The zones of the first `count` kept strokes, at most 64, each with its strokes.
    fn zones_of(&self, out: &mut Output, name: &str, count: usize) -> io::Result<()> {
        let mut zones = Rows::<64, 5, [usize; 4]>::new([0; 4]);
        let mut strokes = Rows::<64, 2, u8>::new(0);
        let Ok(listed) = zones::get_zs_seq(
            self.stand,
            self.stores,
            0,
            count,
            &mut zones.lent(),
            &mut strokes.lent(),
        ) else {
            return Ok(());
        };
        let mut of_zones = (0..listed.strokes).map_while(|i| strokes.row(i));
        for zone in (0..listed.zones).map_while(|i| zones.row(i)) {
            zone_line(out, name, zone)?;
            for stroke in of_zones.by_ref().take(zone.kind[3]) {
                zone_stroke(out, name, stroke)?;
            }
        }
        Ok(())
    }

    fn fx_list(&self, out: &mut Output) -> io::Result<()> {
        fractal_lines(
            out,
            "fxs",
            |to| reports::get_fx_list(self.stand, self.stores, to),
        )
    }

    // is_bis_up and is_bis_down of one run, where it exists.
    fn run_line(&self, out: &mut Output, first: usize, count: usize) -> io::Result<()> {
        let Ok(rising) = zones::is_bis_up(self.stand, self.stores, first, count) else {
            return Ok(());
        };
        let falling = zones::is_bis_down(self.stand, self.stores, first, count).unwrap_or(false);
        write!(out, "bis {first} {count}")?;
        writeln!(out, " {} {}", u8::from(rising), u8::from(falling))
    }

    // Runs of 0 to 7 strokes from each place on.
    fn runs(&self, out: &mut Output) -> io::Result<()> {
        for first in 0..=self.stand.strokes.min(64) {
            for count in 0..8 {
                self.run_line(out, first, count)?;
            }
        }
        Ok(())
    }

    // The answers of each fractal of the stroke at a place.
    fn stroke_answers(&self, out: &mut Output, stroke: usize) -> io::Result<()> {
        answers_lines(
            out,
            |place| reports::stroke_fractal_answers(self.stand, self.stores, stroke, place),
        )
    }

    // .. and of each fractal of the unfinished bars.
    fn unfinished_answers(&self, out: &mut Output) -> io::Result<()> {
        answers_lines(
            out,
            |place| reports::unfinished_fractal_answers(self.stand, self.stores, place),
        )
    }

    // The fractals of the unfinished bars.
    fn unfinished_fractals(&self, out: &mut Output) -> io::Result<()> {
        fractal_lines(
            out,
            "ubifx",
            |to| reports::ubi_fxs(self.stand, self.stores, to),
        )
    }

    // get_ubi, or `no` where question 15 fails.
    fn unfinished(&self, out: &mut Output) -> io::Result<()> {
        let Ok(u) = reports::get_ubi(self.stand, self.stores) else {
            return writeln!(out, "unfinished no");
        };
        let range = [u.high, u.low];
        write!(out, "unfinished {}{}", u.direction, Spaced(&range))?;
        write!(out, " {} {}", u.highBar.time, u.lowBar.time)?;
        writeln!(
            out,
            " {} {} {} {}",
            u.bars, u.raw, u.fractals, u.first.mid.time
        )
    }

    // How many kept strokes are finished.
    fn finished(&self) -> usize {
        reports::get_finished_bis(self.stand, self.stores).unwrap_or(0)
    }

    fn extends(&self) -> bool {
        reports::last_bi_extend(self.stand, self.stores).unwrap_or(false)
    }

    // Each pair of neighbouring kept raw bars.
    fn gaps(&self, out: &mut Output) -> io::Result<()> {
        // Kept: arrays side by side, since the entry point writes into these columns.
        let mut kinds = [0u64; 4096];
        let mut values = [[0f64; 3]; 4096];
        let mut covered = [false; 4096];
        let count = reports::check_gaps(
            self.stand,
            self.stores,
            &mut kinds,
            &mut values,
            &mut covered,
        )
        .unwrap_or(0);
        for ((kind, values), covered) in kinds.iter().zip(&values).zip(&covered).take(count) {
            gap_line(out, gap_of(*kind, *values, *covered))?;
        }
        Ok(())
    }

    // The reports over the strokes.
    fn over_strokes(&self, out: &mut Output) -> io::Result<()> {
        let strokes = self.stand.strokes;
        for place in 0..strokes.min(65) {
            self.measure(out, place)?;
            self.fakes(out, place)?;
        }
        self.fx_list(out)?;
        let finished = self.finished();
        writeln!(out, "finished {finished}")?;
        writeln!(out, "extend {}", u8::from(self.extends()))?;
        self.zones_of(out, "", strokes)?;
        self.zones_of(out, "fin-", finished)?;
        self.runs(out)
    }

    // All of them, of a stand that question 4 has passed.
    fn over_all(&self, out: &mut Output) -> io::Result<()> {
        self.over_strokes(out)?;
        for place in 0..self.stand.strokes.min(65) {
            self.stroke_answers(out, place)?;
        }
        self.unfinished_answers(out)?;
        self.unfinished_fractals(out)?;
        self.unfinished(out)?;
        self.gaps(out)?;
        writeln!(out, "end")
    }

    pub fn report(&self, out: &mut Output) -> io::Result<()> {
        // Kept: a test, since a match on the two answers of question4::ask would be as long: `?` can't hand its refusal on as an error of the output.
        if question4::is_sound(self.stand, self.stores) {
            self.over_all(out)
        } else {
            refusal(out, Question::Sound)
        }
    }
}
